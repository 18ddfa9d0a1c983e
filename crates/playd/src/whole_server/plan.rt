//! What the devices of a run are planned to do.

/// A moment of a run, for which calls of devices may wait.
#[derive(Clone, Copy)]
pub enum Moment {
    /// A client was answered.
    Answered,
    /// An output was written to.
    Written,
    /// A call of a link, a door or the clock was made for which another call waits.
    Released,
}

/// What is planned for the calls of a device, whose numbers are counted from 1.
#[derive(Clone, Copy)]
pub struct Calls {
    /// The calls that fail.
    pub fails: &'static [u64],
    /// The call that waits for a moment.
    pub waits: Option<(u64, Moment)>,
    /// The call that sets a moment.
    pub sets: Option<(u64, Moment)>,
}

impl Calls {
    /// No call waits, sets a moment or fails.
    pub const FREE: Calls = Calls {
        fails: &[],
        waits: None,
        sets: None,
    };
}

/// A client with one link. The calls of the link are its reads and its writes; each reply is one write.
#[derive(Clone, Copy)]
pub struct Client {
    /// What it sends.
    pub lines: &'static str,
    /// The most bytes that a read gives.
    pub piece: usize,
    /// The numbers of the reads that find nothing yet.
    pub idle: &'static [u64],
    pub calls: Calls,
    /// The replies that it gets.
    pub replies: &'static str,
}

/// The devices of a run: a door for each client, an output for each channel, one for the history and one for the log.
#[derive(Clone, Copy)]
pub struct Plan {
    pub clients: &'static [Client],
    /// What is planned for each door.
    pub doors: Calls,
    /// How many pulses the clock gives before it is closed.
    pub pulses: u64,
    pub clock: Calls,
    pub outputs: &'static [Calls],
    pub history: Calls,
    pub log: Calls,
}

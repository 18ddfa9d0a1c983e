//! What a history is made of.

use crate::command::{Cmd, CmdList};

/// The most ticks of a history.
pub const MAX_TICKS: u64 = 281_474_976_710_656;

/// Who asked: a connection worker and a session of it. Worker 0, session 0 is the server itself.
#[derive(Clone, Copy, Debug, PartialEq, Eq)]
pub struct Tag {
    pub worker: u32,
    pub session: u32,
}

/// One step of a history.
#[derive(Debug, Drop)]
pub enum Event {
    /// One command.
    Do(Tag, Cmd),
    /// Commands that happen together.
    Batch(Tag, CmdList),
    /// One tick of all channels.
    Tick,
    /// The end of the history.
    Stop(Tag),
}

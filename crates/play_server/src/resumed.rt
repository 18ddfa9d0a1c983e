//! What a run goes on from, for a person.
ghost use Rattle.std.specs.Prelude.{◌≡◌};
ghost use Rattle.play_types.specs.History.{held, ticks};

use history_reader::ReadHistory;

/// What a run goes on from.
#[derive(Clone, Copy, Debug, PartialEq, Eq)]
pub struct Resumed {
    /// The number of events. Each tick, each command and each batch is one.
    pub events: u64,
    /// The number of commands, those of batches among them.
    pub commands: u32,
    /// The number of ticks, which is also the time that the run goes on at, in ticks since the beginning.
    pub ticks: u64,
    /// The number of ticks a second of the configuration.
    pub rate: u32,
    /// The number of bytes after the last line feed, which were left out.
    pub bytes_left_out: u64,
    /// Whether a stop at the end was left out.
    pub stop_left_out: bool,
}

impl Resumed {
    /// Returns what a run goes on from if it goes on from this history.
    pub(crate) fn of(history: &ReadHistory) -> Resumed
        ensures commands { result.commands ≡ held history.now.stage.journal.events }
        ensures ticks { result.ticks ≡ ticks history.now.stage.journal.events }
        ensures rate { result.rate ≡ history.now.setup.config.rate }
        ensures bytes { result.bytes_left_out ≡ history.now.bytes_left_out }
        ensures stop { result.stop_left_out ≡ history.now.stop_left_out }
    {
        let journal = history.stage.journal();
        Resumed {
            events: event_count(history),
            commands: journal.held(),
            ticks: journal.ticks(),
            rate: history.setup.config.rate(),
            bytes_left_out: history.bytes_left_out,
            stop_left_out: history.stop_left_out,
        }
    }
}

/// Returns the number of events of a history.
fn event_count(history: &ReadHistory) -> u64 {
    let mut count = 0u64;
    for run in history.stage.journal().events() {
        count = count.saturating_add(run.times);
    }
    count
}

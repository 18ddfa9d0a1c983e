//! A sink of which one write waits for a flag.
ghost use Rattle.std.specs.Prelude.{◌≡◌};

use super::FlaggedCall;
use super::hold::Hold;
use crate::{MemSink, Rest, Sink, WriteStep};

/// A sink in memory, of which one write waits for a flag.
#[derive(Drop)]
pub struct HeldSink {
    sink: MemSink,
    hold: Hold,
}

impl HeldSink {
    /// Creates a sink that holds the write of `waits` until its flag is set, or fails it after 2,000,000,000 turns, and sets
    /// the flag of `sets` at its write.
    pub fn new(sink: MemSink, waits: Option<FlaggedCall>, sets: Option<FlaggedCall>) -> HeldSink
        ensures { ⟦<HeldSink as Sink>⟧.state result ≡ ⟦<MemSink as Sink>⟧.state sink }
    {
        HeldSink {
            sink,
            hold: Hold::new(waits, sets),
        }
    }

    /// Returns the sink as it is now.
    pub fn sink(&self) -> &MemSink
        ensures { ⟦<MemSink as Sink>⟧.state result.now ≡ ⟦<HeldSink as Sink>⟧.state self.now }
    {
        &self.sink
    }
}

impl Sink for HeldSink {
    ghost state = { λ h. ⟦<MemSink as Sink>⟧.state h.sink };

    fn write(&mut self, piece: &[u8]) -> WriteStep {
        if self.hold.goes_on() {
            self.sink.write(piece)
        } else {
            self.sink.fail_call()
        }
    }
}

impl Rest for HeldSink {
    fn rest(&mut self) {}
}

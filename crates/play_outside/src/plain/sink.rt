//! A sink that never fails.
ghost use Rattle.std.specs.Prelude.{◌≡◌, ◌<◌, None, length};
ghost use Rattle.play_outside.specs.Sink.{Writes};

use crate::{Rest, Sink, WriteStep};

/// A sink that takes every piece whole, and keeps none. It never fails, and does not expose what it took.
#[derive(Clone, Copy)]
pub struct PlainSink {
    mark: u64,
}

impl PlainSink {
    /// Creates a sink with this mark.
    pub fn new(mark: u64) -> PlainSink
        ensures { ⟦<PlainSink as Sink>⟧.state result ≡ record { taken = None; faults = 0; mark = mark; at_fault = None; reading = None; idle = 0 } }
    {
        PlainSink { mark }
    }
}

impl Sink for PlainSink {
    ghost state = { λ s. record { taken = None; faults = 0; mark = s.mark; at_fault = None; reading = None; idle = 0 } };

    fn write(&mut self, piece: &[u8]) -> WriteStep
        requires { 0 < length piece.now }
        ensures writes { Writes result piece.now (⟦<PlainSink as Sink>⟧.state self.old) (⟦<PlainSink as Sink>⟧.state self.new) }
        ensures whole { result ≡ WriteStep.Took (length piece.now) }
    {
        WriteStep::Took(piece.len())
    }
}

impl Rest for PlainSink {
    fn rest(&mut self) {}
}

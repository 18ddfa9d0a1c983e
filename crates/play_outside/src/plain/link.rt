//! A link that never fails.
ghost use Rattle.std.specs.Prelude.{◌≡◌, ◌<◌, None, length};
ghost use Rattle.play_outside.specs.Sink.{Writes};

use crate::{Link, LinkStep, Sink, WriteStep};

/// A link that is at its end, takes every piece whole, and keeps none. It never fails, and does not expose what it took
/// or how it was read.
#[derive(Clone, Copy)]
pub struct PlainLink {
    mark: u64,
}

impl PlainLink {
    /// Creates a link with this mark.
    pub fn new(mark: u64) -> PlainLink
        ensures { ⟦<PlainLink as Sink>⟧.state result ≡ record { taken = None; faults = 0; mark = mark; at_fault = None; reading = None; idle = 0 } }
    {
        PlainLink { mark }
    }
}

impl Sink for PlainLink {
    ghost state = { λ l. record { taken = None; faults = 0; mark = l.mark; at_fault = None; reading = None; idle = 0 } };

    fn write(&mut self, piece: &[u8]) -> WriteStep
        requires { 0 < length piece.now }
        ensures writes { Writes result piece.now (⟦<PlainLink as Sink>⟧.state self.old) (⟦<PlainLink as Sink>⟧.state self.new) }
        ensures whole { result ≡ WriteStep.Took (length piece.now) }
    {
        WriteStep::Took(piece.len())
    }
}

impl Link for PlainLink {
    fn read(&mut self, _buf: &mut [u8]) -> LinkStep {
        LinkStep::End
    }
}

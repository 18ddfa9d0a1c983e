//! Writing to a stream of the system.
ghost use Rattle.std.specs.Prelude.{◌≡◌, ◌<◌, None, length};
ghost use Rattle.play_outside.specs.Sink.{Writes};
ghost use Rattle.host_system.specs.Stream.{AddsTo};

use crate::complaint::complain;
use play_outside::{Sink, WriteStep};
use std::io::{Eprint, ErrorKind, Write};

/// How many interruptions of one call make it fail.
pub const INTERRUPTIONS: u32 = 1000;

/// Writes to standard output, and buffers nothing: what a write took, the system took. It reports on standard error why
/// a write failed. Its state does not hold what was taken.
#[derive(Drop)]
pub struct StdSink<W, E> {
    output: W,
    errors: E,
    program: &'static str,
    faults: u64,
}

impl<W: Write + Drop, E: Eprint + Drop> StdSink<W, E> {
    /// Returns a sink over a stream. No write has failed yet. Each report begins with `program`.
    pub fn new(output: W, errors: E, program: &'static str) -> StdSink<W, E>
        ensures { ⟦<StdSink<W, E> as Sink>⟧.state result ≡ record { taken = None; faults = 0; mark = 0; at_fault = None; reading = None; idle = 0 } }
    {
        StdSink {
            output,
            errors,
            program,
            faults: 0,
        }
    }
}

impl<W: Write + Drop, E: Eprint + Drop> Sink for StdSink<W, E> {
    ghost state = { λ s. record { taken = None; faults = s.faults; mark = 0; at_fault = None; reading = None; idle = 0 } };

    /// Writes a prefix of the piece. An interrupted write is made again, but for the last of `INTERRUPTIONS` interruptions.
    fn write(&mut self, piece: &[u8]) -> WriteStep
        requires { 0 < length piece.now }
        ensures writes { Writes result piece.now (⟦<StdSink<W, E> as Sink>⟧.state self.old) (⟦<StdSink<W, E> as Sink>⟧.state self.new) }
        ensures stream { AddsTo result piece.now (W.contents self.old.output) (W.contents self.new.output) }
    {
        for _ in 0..INTERRUPTIONS {
            match self.output.write(piece) {
                Ok(0) => break,
                Ok(count) => return WriteStep::Took(count),
                Err(error) if matches!(error.kind(), ErrorKind::Interrupted) => {}
                Err(error) => {
                    complain(&self.errors, self.program, "standard output", &error);
                    break;
                }
            }
        }
        self.faults = self.faults.saturating_add(1);
        WriteStep::Failed
    }
}

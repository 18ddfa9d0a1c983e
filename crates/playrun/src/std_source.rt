//! Reading from a stream of the system.
ghost use Rattle.std.specs.Prelude.{◌≡◌, ◌<◌, None, length};
ghost use Rattle.play_outside.specs.Source.{Reads};
ghost use Rattle.playrun.specs.Stream.{GivesFrom};

use super::complaint::PROGRAM;
use host_system::{INTERRUPTIONS, complain};
use play_outside::{ReadStep, Source};
use std::io::{Eprint, ErrorKind, Read};

/// Reads standard input, and reports on standard error why a read failed. Its state does not hold what is left.
#[derive(Drop)]
pub struct StdSource<R, E> {
    input: R,
    errors: E,
    faults: u64,
}

impl<R: Read + Drop, E: Eprint + Drop> StdSource<R, E> {
    /// Returns a source over a stream. No read has failed yet.
    pub fn new(input: R, errors: E) -> StdSource<R, E>
        ensures { ⟦<StdSource<R, E> as Source>⟧.state result ≡ record { left = None; faults = 0 } }
    {
        StdSource {
            input,
            errors,
            faults: 0,
        }
    }
}

impl<R: Read + Drop, E: Eprint + Drop> Source for StdSource<R, E> {
    ghost state = { λ s. record { left = None; faults = s.faults } };

    /// Reads the next bytes. An interrupted read is made again, but for the last of `INTERRUPTIONS` interruptions.
    fn read(&mut self, buf: &mut [u8]) -> ReadStep
        requires { 0 < length buf.old }
        ensures reads { Reads result buf.new (⟦<StdSource<R, E> as Source>⟧.state self.old) (⟦<StdSource<R, E> as Source>⟧.state self.new) }
        ensures stream { GivesFrom result buf.new (R.remaining self.old.input) (R.remaining self.new.input) }
    {
        for _ in 0..INTERRUPTIONS {
            match self.input.read(buf) {
                Ok(0) => return ReadStep::End,
                Ok(count) => return ReadStep::Got(count),
                Err(error) if matches!(error.kind(), ErrorKind::Interrupted) => {}
                Err(error) => {
                    complain(&self.errors, PROGRAM, "standard input", &error);
                    break;
                }
            }
        }
        self.faults = self.faults.saturating_add(1);
        ReadStep::Failed
    }
}

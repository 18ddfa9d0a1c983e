//! What an output has besides its file: its name, its room, and how long it has waited for its reader.
ghost use Rattle.std.specs.Prelude.{◌<◌, ◌≤◌, length, take, IfOk, MatchResult};
ghost use Rattle.std.specs.Io.KnownBytes.{Appends, Keeps};

use crate::complaint::{complain, say_stalled};
use crate::door_group::DoorGroup;
use crate::file_limit::FileRoom;
use crate::patience::{Patience, write_some};
use crate::stall::{Stall, StallStep, pause_after};
use std::fmt::Display;
use std::io::{self, Eprint, Error, ErrorKind, Write};
use std::thread;
use std::time::{Clock, Duration, Instant};

/// Why an output is given up at the end of a run.
const NOT_READ: &str = "its reader kept the end of the run waiting for ten seconds";

/// The name of an output for standard error, how many bytes it may still take, and how long it has waited for its
/// reader.
#[derive(Drop)]
pub(crate) struct Output<E> {
    name: String,
    errors: E,
    room: FileRoom,
    stall: Stall,
    /// The doors that show whether the run has ended, if the output is one of a run.
    group: Option<DoorGroup>,
}

impl<E: Clock + Eprint + Drop> Output<E> {
    /// Returns an output of this name, whose file is not limited and which waits for its reader for any time.
    pub(crate) fn new(name: String, errors: E) -> Output<E> {
        Output {
            name,
            errors,
            room: FileRoom::new(None),
            stall: Stall::new(),
            group: None,
        }
    }

    /// Returns the output with this room, as one of the run that the doors of `group` serve.
    pub(crate) fn of_run(self, room: FileRoom, group: DoorGroup) -> Output<E> {
        Output {
            room,
            group: Some(group),
            ..self
        }
    }

    /// Returns where its lines on standard error are written.
    pub(crate) fn errors(&self) -> &E {
        &self.errors
    }

    /// Returns its name for standard error.
    pub(crate) fn name(&self) -> &str {
        self.name.as_str()
    }

    /// Reports what is wrong with it.
    pub(crate) fn complain<D: Display>(&self, why: &D) {
        complain(&self.errors, self.name.as_str(), why);
    }

    /// Writes a prefix of the piece to its file. While the reader takes nothing it waits: without a limit while the run
    /// goes on, and for ten seconds in all at its end. After a second it reports the wait. An interrupted write is made
    /// again, but for the last of `INTERRUPTIONS` interruptions.
    pub(crate) fn write<W: Write>(&mut self, file: &mut W, piece: &[u8]) -> io::Result<usize>
        requires { 0 < length piece.now }
        ensures count { IfOk result (λ count. (0 < count) × (count ≤ length piece.now)) }
        ensures stream { MatchResult result
            (λ count. Appends (W.contents file.old) (W.contents file.new) (take count piece.now))
            (λ error. Keeps (W.contents file.old) (W.contents file.new)) }
    {
        self.room.check()?;
        for tries in 0..u64::MAX {
            match write_some(file, piece, &mut Patience::FILE) {
                Ok(count) => {
                    self.take(count);
                    return Ok(count);
                }
                Err(error) if matches!(error.kind(), ErrorKind::WouldBlock) => self.wait(tries)?,
                Err(error) => return Err(error),
            }
        }
        Err(Error::from(ErrorKind::TimedOut))
    }

    /// Notes that its file took `count` bytes.
    fn take(&mut self, count: usize) {
        self.stall.take();
        self.room.take(count);
    }

    /// Pauses after `tries` tries of a write of which the reader took nothing. It fails if the output has waited for
    /// long enough.
    fn wait(&mut self, tries: u64) -> io::Result<()> {
        let Some(pause) = pause_after(tries) else {
            thread::yield_now();
            return Ok(());
        };
        let begun = Instant::now(&self.errors)?;
        thread::sleep(&self.errors, pause);
        let waited = nanos_of(begun.elapsed(&self.errors)?);
        let is_ending = self.is_ending();
        match self.stall.wait(waited, is_ending) {
            StallStep::GoOn => Ok(()),
            StallStep::Say => {
                say_stalled(&self.errors, self.name.as_str());
                Ok(())
            }
            StallStep::GiveUp => Err(Error::new(ErrorKind::TimedOut, NOT_READ)),
        }
    }

    /// Returns whether, as far as is known, the run waits for nothing but its outputs.
    fn is_ending(&self) -> bool {
        match &self.group {
            Some(group) => group.is_quiet(),
            None => false,
        }
    }
}

/// Returns the nanoseconds of a time, or `u64::MAX` if they are more.
fn nanos_of(time: Duration) -> u64 {
    u64::try_from(time.as_nanos()).unwrap_or(u64::MAX)
}

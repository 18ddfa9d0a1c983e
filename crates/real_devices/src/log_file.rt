//! The file of the log, which is synced to the disk from time to time.
ghost use Rattle.std.specs.Prelude.{◌≡◌, ◌<◌, ◌≤◌, None, length, take, IfOk, MatchResult};
ghost use Rattle.std.specs.Io.KnownBytes.{Appends, Keeps};

use crate::complaint::say_log;
use crate::journal_names::is_at;
use crate::output::Output;
use crate::pace::millis;
use std::fs::{self, File};
use std::io::{self, Eprint, Error, ErrorKind, Write};
use std::rt::Files;
use std::time::Clock;

/// For how many milliseconds written bytes wait until they are synced. With a rest of the writer and the call itself
/// that is a second.
const SYNC_MILLIS: u64 = 900;

/// Why a log is not removed at the end of a run.
const GONE: &str = "it was moved or removed meanwhile";

/// The report on a log whose history is not whole.
const STAYS: &str = "it stays, since the history has no name";

/// A file whose bytes can be synced to the disk.
pub trait Synced: Write {
    /// Syncs what was written to the disk. The contents of the file stay as they are.
    fn sync(&mut self) -> io::Result<()>
        ensures { Keeps (Self.contents self.old) (Self.contents self.new) };
}

impl Synced for File {
    fn sync(&mut self) -> io::Result<()> {
        self.sync_data()
    }
}

/// A file that is written while the server runs, and synced to the disk once a second while something is written.
#[derive(Drop)]
pub(crate) struct LogFile<W> {
    file: W,
    /// The millisecond of the clock since which bytes wait to be synced, if some do.
    unsynced: Option<u64>,
    /// Why a sync failed, until a write has returned this error.
    failed: Option<Error>,
}

impl<W: Synced> LogFile<W> {
    /// Returns the log over a file to which nothing was written.
    pub(crate) fn new(file: W) -> LogFile<W>
        ensures { result ≡ record { file = file; unsynced = None; failed = None } }
    {
        LogFile {
            file,
            unsynced: None,
            failed: None,
        }
    }

    /// Returns the file.
    pub(crate) fn file(&self) -> &W
        ensures { result.now ≡ self.now.file }
    {
        &self.file
    }

    /// Writes a prefix of the piece to the file of this output. It fails, and writes nothing, if an earlier sync
    /// failed.
    pub(crate) fn write<E: Clock + Eprint + Drop>(
        &mut self,
        output: &mut Output<E>,
        piece: &[u8],
    ) -> io::Result<usize>
        requires { 0 < length piece.now }
        ensures count { IfOk result (λ count. (0 < count) × (count ≤ length piece.now)) }
        ensures stream { MatchResult result
            (λ count. Appends (W.contents self.old.file) (W.contents self.new.file) (take count piece.now))
            (λ error. Keeps (W.contents self.old.file) (W.contents self.new.file)) }
    {
        let now = millis(output.errors());
        self.sync(now);
        if let Some(error) = self.failed.take() {
            return Err(error);
        }
        let count = output.write(&mut self.file, piece)?;
        self.unsynced = Some(self.unsynced.unwrap_or(now));
        Ok(count)
    }

    /// Syncs the file if its bytes have waited for long enough at the millisecond `now` of the clock.
    pub(crate) fn sync(&mut self, now: u64)
        ensures { Keeps (W.contents self.old.file) (W.contents self.new.file) }
    {
        let Some(since) = self.unsynced else {
            return;
        };
        if now.saturating_sub(since) < SYNC_MILLIS {
            return;
        }
        self.unsynced = None;
        if let Err(error) = self.file.sync() {
            self.failed = Some(error);
        }
    }
}

impl LogFile<File> {
    /// Ends the log of a run, whose file has this name. If the history is whole the file is removed, unless the name is
    /// of another file by now. If not, the file stays. Standard error says if it stays, and why.
    pub(crate) fn end<R: Files + Eprint>(self, rt: &R, name: &str, is_whole: bool) {
        let ended = if is_whole {
            remove(rt, name, &self.file)
        } else {
            self.file.sync_data()
        };
        match ended {
            Ok(()) if is_whole => {}
            Ok(()) => say_log(rt, name, &STAYS),
            Err(error) => say_log(rt, name, &error),
        }
    }
}

/// Removes a file that has this name. It fails if the name is of another file.
fn remove<R: Files>(rt: &R, name: &str, file: &File) -> io::Result<()> {
    if !is_at(rt, name, &file.metadata()?)? {
        return Err(Error::new(ErrorKind::NotFound, GONE));
    }
    fs::remove_file(rt, name)
}

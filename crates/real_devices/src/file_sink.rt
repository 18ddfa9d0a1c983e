//! Writing to a file.
ghost use Rattle.std.specs.Prelude.{◌≡◌, ◌<◌, ◌≤◌, IfNone, IfOk, MatchResult, None, Some, length, take};
ghost use Rattle.std.specs.Io.KnownBytes.{Appends, Keeps};
ghost use Rattle.play_outside.specs.Sink.{Writes};
ghost use Rattle.real_devices.specs.Fresh.{quiet_sink};
ghost use Rattle.real_devices.specs.State.{file_among, file_of, file_state};
ghost use Rattle.real_devices.specs.Stream.{AddsTo, contents_of};

use crate::complaint::say_log_failed;
use crate::door_group::DoorGroup;
use crate::file_limit::FileRoom;
use crate::journal_names::JournalNames;
use crate::live::LiveSink;
use crate::log_file::{LogFile, Synced};
use crate::output::Output;
use crate::pace::millis;
use play_outside::{FileFault, Rest, Sink, WriteStep};
use std::fmt::Display;
use std::fs::File;
use std::io::{self, Eprint};
use std::rt::Files;
use std::thread;
use std::time::{Clock, Duration};

/// For how many milliseconds the writer of a log rests before it looks again for text to write: an event is in the log
/// after 150 at most.
const REST_MILLIS: u64 = 40;

/// What an output writes to.
#[derive(Drop)]
pub(crate) enum Target<W> {
    /// Nothing: it takes every byte, and keeps none.
    Nothing,
    /// A file.
    File(W),
    /// A file that is written while the server runs, and synced to the disk meanwhile.
    Log(LogFile<W>),
    /// Readers that come and go: it takes every byte, and hands on the frames that somebody reads.
    Live(LiveSink),
}

/// Writes to a file, and buffers nothing: what a write took, the system took. Without a file it takes every byte, and
/// keeps none or hands them to the readers of a live output. It reports on standard error why a write failed, and, for
/// a pipe or a device that does not block, that its reader has taken nothing for a second. Its state does not hold what
/// was taken.
#[derive(Drop)]
pub struct FileSink<W, E> {
    output: Output<E>,
    target: Target<W>,
    faults: u64,
    mark: u64,
    /// The names of the file, if it gets another one when it is whole.
    names: Option<JournalNames>,
}

impl<W: Synced + Drop> Target<W> {
    /// Writes a prefix of the piece to the file of this target, or takes all of it if there is no file.
    fn write<E: Clock + Eprint + Drop>(
        &mut self,
        output: &mut Output<E>,
        piece: &[u8],
    ) -> io::Result<usize>
        requires { 0 < length piece.now }
        ensures count { IfOk result (λ count. (0 < count) × (count ≤ length piece.now)) }
        ensures stream { MatchResult result
            (λ count. Appends (contents_of W.contents (file_among self.old)) (contents_of W.contents (file_among self.new)) (take count piece.now))
            (λ error. Keeps (contents_of W.contents (file_among self.old)) (contents_of W.contents (file_among self.new))) }
        ensures no_file { IfNone (file_among self.old) (result ≡ Ok (length piece.now)) }
    {
        match self {
            Target::File(file) => output.write(file, piece),
            Target::Log(log) => log.write(output, piece),
            Target::Nothing => Ok(piece.len()),
            Target::Live(live) => {
                live.write(output.errors(), output.name(), piece);
                Ok(piece.len())
            }
        }
    }

    /// Syncs a log to the disk if its bytes have waited for long enough at the millisecond `now` of the clock.
    fn sync(&mut self, now: u64)
        ensures { Keeps (contents_of W.contents (file_among self.old)) (contents_of W.contents (file_among self.new)) }
    {
        match self {
            Target::Log(log) => log.sync(now),
            Target::Nothing | Target::File(_) | Target::Live(_) => {}
        }
    }
}

impl<W: Synced + Drop, E: Clock + Eprint + Drop> FileSink<W, E> {
    /// Returns a sink over a file, or over none, with this mark. No write has failed yet. The name of the file is for
    /// standard error alone.
    pub fn new(name: String, file: Option<W>, errors: E, mark: u64) -> FileSink<W, E>
        ensures fresh { file_state result ≡ quiet_sink mark }
        ensures file { file_of result ≡ file }
    {
        FileSink {
            output: Output::new(name, errors),
            target: match file {
                Some(file) => Target::File(file),
                None => Target::Nothing,
            },
            faults: 0,
            mark,
            names: None,
        }
    }

    /// Returns the sink of a live output, with this mark. No write fails.
    pub(crate) fn live(name: String, live: LiveSink, errors: E, mark: u64) -> FileSink<W, E>
        ensures fresh { file_state result ≡ quiet_sink mark }
        ensures file { file_of result ≡ None }
    {
        FileSink {
            output: Output::new(name, errors),
            target: Target::Live(live),
            faults: 0,
            mark,
            names: None,
        }
    }

    /// Returns the sink of a log that is written to `file`, with this mark. No write has failed yet.
    pub(crate) fn log(name: String, file: W, errors: E, mark: u64) -> FileSink<W, E>
        ensures fresh { file_state result ≡ quiet_sink mark }
        ensures file { file_of result ≡ Some file }
    {
        FileSink {
            output: Output::new(name, errors),
            target: Target::Log(LogFile::new(file)),
            faults: 0,
            mark,
            names: None,
        }
    }

    /// Returns the sink with this room for its file, as one of the run that the doors of `group` serve.
    pub(crate) fn of_run(self, room: FileRoom, group: DoorGroup) -> FileSink<W, E>
        ensures state { file_state result ≡ file_state self }
        ensures file { file_of result ≡ file_of self }
    {
        FileSink {
            output: self.output.of_run(room, group),
            ..self
        }
    }

    /// Returns the sink with the names of its file, which is renamed once it is whole.
    pub(crate) fn with_names(self, names: JournalNames) -> FileSink<W, E>
        ensures state { file_state result ≡ file_state self }
        ensures file { file_of result ≡ file_of self }
    {
        FileSink {
            names: Some(names),
            ..self
        }
    }

    /// Returns the file, if there is one.
    pub(crate) fn file(&self) -> Option<&W> {
        match &self.target {
            Target::File(file) => Some(file),
            Target::Log(log) => Some(log.file()),
            Target::Nothing | Target::Live(_) => None,
        }
    }

    /// Asks a live output to end.
    pub(crate) fn note_ending(&self) {
        match &self.target {
            Target::Live(live) => live.note_ending(),
            Target::Nothing | Target::File(_) | Target::Log(_) => {}
        }
    }

    /// Returns the path that the file gets once it is whole, if it is renamed then.
    pub(crate) fn path_when_whole(&self) -> Option<&str> {
        self.names.as_ref().map(|names| names.path())
    }

    /// Reports why a write failed.
    fn complain<D: Display>(&self, why: &D) {
        match &self.target {
            Target::Log(_) => say_log_failed(self.output.errors(), self.output.name(), why),
            Target::Nothing | Target::File(_) | Target::Live(_) => self.output.complain(why),
        }
    }
}

impl<R: Files<File = File> + Clock + Eprint + Drop> FileSink<File, R> {
    /// Ends the writing of a file that is renamed once it is whole. If something was written and no write failed, it
    /// gets its name. If nothing was written, it is removed. Else it keeps the name that it has, standard error says
    /// so, and `Failed` is returned.
    ///
    /// A live output hands out what waits, for two seconds at most.
    pub(crate) fn finish(self) -> Result<(), FileFault> {
        let FileSink {
            output,
            target,
            faults,
            names,
            ..
        } = self;
        let rt = output.errors();
        let file = match target {
            Target::Nothing | Target::Log(_) => return Ok(()),
            Target::File(file) => file,
            Target::Live(live) => {
                live.finish(rt, output.name());
                return Ok(());
            }
        };
        let Some(mut names) = names else {
            return Ok(());
        };
        if faults > 0 {
            names.say_stays(rt, &"the history is not whole");
            return Err(FileFault::Failed);
        }
        match settle(rt, &file, &mut names) {
            Ok(true) => Ok(()),
            Ok(false) => Err(FileFault::Failed),
            Err(error) => {
                names.say_stays(rt, &error);
                Err(FileFault::Failed)
            }
        }
    }
}

impl<R: Files<File = File> + Clock + Eprint + Drop> FileSink<File, R> {
    /// Ends the log of a run. If the history is whole, the file of the log is removed. If not, it stays, and standard
    /// error says so.
    pub(crate) fn end_log(self, is_whole: bool) {
        let FileSink { output, target, .. } = self;
        match target {
            Target::Log(log) => log.end(output.errors(), output.name(), is_whole),
            Target::Nothing | Target::File(_) | Target::Live(_) => {}
        }
    }
}

/// Gives a file without a failed write its name, or removes it if nothing was written. Returns whether the file was
/// still at its path.
fn settle<R: Files<File = File> + Eprint>(
    rt: &R,
    file: &File,
    names: &mut JournalNames,
) -> io::Result<bool> {
    if !names.are_of(rt, file)? {
        return Ok(false);
    }
    if file.metadata()?.len() == 0 {
        names.remove(rt)?;
        return Ok(true);
    }
    file.sync_all()?;
    names.give(rt)?;
    Ok(true)
}

impl<W: Synced + Drop, E: Clock + Eprint + Drop> Sink for FileSink<W, E> {
    ghost state = { file_state };

    /// Writes a prefix of the piece, and waits until the reader of a pipe takes something, but for ten seconds in all
    /// once the run ends. An interrupted write is made again, but for the last of `INTERRUPTIONS` interruptions.
    fn write(&mut self, piece: &[u8]) -> WriteStep
        requires { 0 < length piece.now }
        ensures writes { Writes result piece.now (file_state self.old) (file_state self.new) }
        ensures stream { AddsTo result piece.now (contents_of W.contents (file_of self.old)) (contents_of W.contents (file_of self.new)) }
        ensures no_file { IfNone (file_of self.old) (result ≡ WriteStep.Took (length piece.now)) }
    {
        match self.target.write(&mut self.output, piece) {
            Ok(count) => WriteStep::Took(count),
            Err(error) => {
                self.complain(&error);
                self.faults = self.faults.saturating_add(1);
                WriteStep::Failed
            }
        }
    }
}

impl<W: Synced + Drop, E: Clock + Eprint + Drop> Rest for FileSink<W, E> {
    /// Sleeps for 40 milliseconds, and syncs a log to the disk if its bytes have waited for nearly a second. If the
    /// sync fails, the next write fails.
    fn rest(&mut self)
        ensures state { file_state self.new ≡ file_state self.old }
        ensures stream { Keeps (contents_of W.contents (file_of self.old)) (contents_of W.contents (file_of self.new)) }
    {
        thread::sleep(self.output.errors(), Duration::from_millis(REST_MILLIS));
        self.target.sync(millis(self.output.errors()));
    }
}

//! Room for a part of a journal that is copied.
ghost use Rattle.std.specs.Prelude.{◌≡◌, ◌+◌, ◌∷◌, ◌++◌, ◌≤◌, [], IfOk, true, false, if◌then◌else◌, length, vec_len, vec_capacity};
ghost use Rattle.std.specs.List.{AllByRecursion};
ghost use Rattle.std.specs.Iterator.{YieldsFirstBy, item_count};
ghost use Rattle.play_types.specs.History.{held_by};
ghost use Rattle.play_types.specs.declared.event.Event.TheVariants.{Batch};
ghost use Rattle.play_journal.specs.Reading.{one_run};
ghost use Rattle.play_journal.specs.Room.{AreKept, logged_run, runs_in};
ghost use Rattle.play_journal.specs.Runs.{HasItsTimes};
ghost use Rattle.play_journal.specs.declared.room.TheConstants.{ROOM_COMMANDS};

use play_types::{Cmd, Event, Tag};
use std::alloc::{AllocError, Global};
use std::marker::Model;

/// The most runs that a room holds.
pub const ROOM_RUNS: usize = 256;

/// The most commands that the batches of a room hold together: twice as many as a batch may have.
pub const ROOM_COMMANDS: usize = 512;

/// A run in a room.
#[derive(Clone, Copy, Debug)]
pub enum LogRun<'a> {
    /// One command.
    Do(Tag, &'a Cmd),
    /// Commands that happen together.
    Batch(Tag, &'a [Cmd]),
    /// Ticks in a row, at least one.
    Ticks(u64),
    /// The end of the history.
    Stop(Tag),
}

/// A run as a room keeps it.
#[derive(Clone, Copy, Debug)]
enum KeptRun {
    Do(Tag, Cmd),
    /// The number of commands of the batch, which follow those of the batches before it in the room.
    Batch(Tag, usize),
    Ticks(u64),
    Stop(Tag),
}

/// Room for runs of events, 256 at most, whose batches hold 512 commands at most. It allocates only when it is created.
///
/// Contracts see the runs in order.
#[derive(Debug, Drop)]
pub struct LogRoom {
    runs: Vec<KeptRun>,
    cmds: Vec<Cmd>,
}

impl Model for LogRoom {
    ghost use Rattle.std.specs.Prelude.{List, ◌≤◌, vec_capacity};
    ghost use Rattle.play_journal.specs.Runs.{Run};
    ghost use Rattle.play_journal.specs.Room.{AreKept, runs_in};
    ghost use Rattle.play_journal.specs.declared.room.TheConstants.{ROOM_COMMANDS, ROOM_RUNS};

    ghost Value = { List Run };

    ghost view = { λ r. runs_in r.runs.items r.cmds.items };

    ghost invariant = { λ r. AreKept r.runs.items r.cmds.items × (ROOM_RUNS ≤ vec_capacity r.runs) × (ROOM_COMMANDS ≤ vec_capacity r.cmds) };
}

impl LogRoom {
    /// Creates an empty room.
    pub fn new(alloc: Global) -> Result<LogRoom, AllocError>
        ensures { IfOk result (λ room. room ≡ []) }
    {
        Ok(LogRoom {
            runs: Vec::with_capacity(alloc, ROOM_RUNS)?,
            cmds: Vec::with_capacity(alloc, ROOM_COMMANDS)?,
        })
    }

    /// Returns the runs in order.
    pub fn runs(&self) -> LogRuns<'_>
        ensures runs { result ≡ self.now }
        ensures times { AllByRecursion (λ run. HasItsTimes run.event run.times) self.now }
    {
        LogRuns {
            runs: self.runs.as_slice(),
            cmds: self.cmds.as_slice(),
        }
    }

    /// Empties the room.
    pub(crate) fn clear(&mut self)
        ensures { self.new ≡ [] }
    {
        self.runs.clear();
        self.cmds.clear();
    }

    /// Adds a copy of an event that happened `times` times in a row, and returns whether there was room for it. An empty room
    /// has room for each event of at most 512 commands.
    pub(crate) fn add(&mut self, event: &Event, times: u64) -> bool
        requires { HasItsTimes event.now times }
        ensures runs { self.new ≡ (if result then self.old ++ record { event = event.now; times = times } ∷ [] else self.old) }
        ensures empty { self.old ≡ [] → held_by event.now ≤ ROOM_COMMANDS → result ≡ true }
    {
        match event {
            Event::Do(tag, cmd) => self.add_kept(KeptRun::Do(*tag, *cmd)),
            Event::Batch(tag, cmds) => self.add_batch(*tag, cmds.as_slice()),
            Event::Tick => self.add_kept(KeptRun::Ticks(times)),
            Event::Stop(tag) => self.add_kept(KeptRun::Stop(*tag)),
        }
    }

    /// Adds a run without commands of a batch, and returns whether there was room for it.
    fn add_kept(&mut self, run: KeptRun) -> bool
        requires { AreKept (run ∷ []) [] }
        ensures runs { self.new ≡ (if result then self.old ++ runs_in (run ∷ []) [] else self.old) }
        ensures empty { self.old ≡ [] → result ≡ true }
    {
        if self.runs.len() >= ROOM_RUNS {
            return false;
        }
        self.runs.push_reserved(run);
        true
    }

    /// Adds a batch, and returns whether there was room for it.
    fn add_batch(&mut self, tag: Tag, cmds: &[Cmd]) -> bool
        ensures runs { self.new ≡ (if result then self.old ++ one_run (Batch tag cmds.now) ∷ [] else self.old) }
        ensures empty { self.old ≡ [] → length cmds.now ≤ ROOM_COMMANDS → result ≡ true }
    {
        if self.runs.len() >= ROOM_RUNS {
            return false;
        }
        if self.cmds.len() + cmds.len() > ROOM_COMMANDS {
            return false;
        }
        push_all(&mut self.cmds, cmds);
        self.runs.push_reserved(KeptRun::Batch(tag, cmds.len()));
        true
    }
}

/// Adds copies of the commands at the end, within the capacity.
fn push_all(to: &mut Vec<Cmd>, cmds: &[Cmd])
    requires { vec_len to.old + length cmds.now ≤ vec_capacity to.old }
    ensures items { to.new.items ≡ to.old.items ++ cmds.now }
    ensures capacity { vec_capacity to.new ≡ vec_capacity to.old }
{
    for cmd in cmds {
        to.push_reserved(*cmd);
    }
}

/// The runs of a room that are left, in order.
#[derive(Clone, Debug, Drop)]
pub struct LogRuns<'a> {
    runs: &'a [KeptRun],
    cmds: &'a [Cmd],
}

impl<'a> Model for LogRuns<'a> {
    ghost use Rattle.std.specs.Prelude.{List};
    ghost use Rattle.play_journal.specs.Runs.{Run};
    ghost use Rattle.play_journal.specs.Room.{AreKept, runs_in};

    ghost Value = { List Run };

    ghost view = { λ r. runs_in r.runs.now r.cmds.now };

    ghost invariant = { λ r. AreKept r.runs.now r.cmds.now };
}

impl<'a> Iterator for LogRuns<'a> {
    type Item = LogRun<'a>;

    ghost next_gives = { YieldsFirstBy logged_run (λ rest. rest) };

    ghost remaining = { item_count (λ rest. rest) };

    fn next(&mut self) -> Option<LogRun<'a>> {
        let (run, runs) = self.runs.split_first()?;
        self.runs = runs;
        Some(match run {
            KeptRun::Do(tag, cmd) => LogRun::Do(*tag, cmd),
            KeptRun::Batch(tag, count) => {
                let (own, cmds) = self.cmds.split_at(*count);
                self.cmds = cmds;
                LogRun::Batch(*tag, own)
            }
            KeptRun::Ticks(times) => LogRun::Ticks(*times),
            KeptRun::Stop(tag) => LogRun::Stop(*tag),
        })
    }
}

//! The journal of a stage.
ghost use Rattle.std.specs.Prelude.{◌≡◌, ◌+◌, ◌++◌, ◌<◌, ◌≤◌, [], IfOk, IfErr, List, OnOk, OnErr, None, length, option_copied};
ghost use Rattle.std.specs.List.{AllByRecursion};
ghost use Rattle.play_types.specs.History.{held, held_by, stop_at, ticks};
ghost use Rattle.play_types.specs.declared.event.Event.{Event};
ghost use Rattle.play_types.specs.declared.event.Event.TheVariants.{Batch, Do, Stop, Tick};
ghost use Rattle.play_types.specs.declared.event.TheConstants.{MAX_TICKS};
ghost use Rattle.play_journal.specs.Journal.{IsJournal, IsRefused, ends_in_tick, followed_by};
ghost use Rattle.play_journal.specs.Kept.{HoldsCommands};
ghost use Rattle.play_journal.specs.Places.{Copies, passed};
ghost use Rattle.play_journal.specs.Runs.{AreRuns, HasItsTimes};
ghost use Rattle.play_journal.specs.inner.Left.{stop_left};

use crate::entries::{Entry, EntryList};
use crate::events::Events;
use crate::fault::PushFault;
use crate::place::Place;
use crate::room::LogRoom;
use play_types::{Cmd, CmdList, Event, Tag};
use std::alloc::{AllocError, Global};
use std::marker::Model;

/// The events that have happened, in order.
///
/// A command, also one that is alone in its batch, takes one entry of at most 88 bytes, which has the number of the ticks
/// before it too. A larger batch takes an entry, and at most 56 bytes more for each command. The entries are kept in blocks of
/// 1,024, which are never moved and of which at most one is not full, and the list of the blocks is allocated when the
/// journal is created. So a journal that holds 4,194,304 commands outside larger batches takes at most 353 MiB, also while
/// it grows, and each push takes a bounded number of steps. Ticks and the stop are kept inline and allocate nothing.
#[derive(Debug, Drop)]
pub struct Journal {
    limit: u32,
    held: u32,
    ticks: u64,
    // The number of events before the stop.
    before: u64,
    entries: EntryList,
    // The ticks after the last entry.
    after: u64,
    stop: Option<Event>,
    // A tick, which the runs of ticks borrow.
    tick: Event,
}

impl Model for Journal {
    ghost use Rattle.std.specs.Prelude.{◌≡◌};
    ghost use Rattle.play_types.specs.declared.event.Event.TheVariants.{Tick};
    ghost use Rattle.play_journal.specs.Journal.{JournalView};
    ghost use Rattle.play_journal.specs.Kept.{AreCounted, kept_events};

    ghost Value = { JournalView };

    ghost view = { λ j. record { limit = j.limit; events = kept_events j.entries j.after j.stop } };

    ghost invariant = { λ j. AreCounted (record { limit = j.limit; held = j.held; ticks = j.ticks; before = j.before }) j.entries j.after j.stop × (j.tick ≡ Tick) };
}

impl Journal {
    /// Creates a journal without events. `limit` is the most commands that it may hold.
    pub fn new(alloc: Global, limit: u32) -> Result<Journal, AllocError>
        ensures { IfOk result (λ journal. journal ≡ record { limit = limit; events = [] }) }
    {
        Ok(Journal {
            limit,
            held: 0,
            ticks: 0,
            before: 0,
            entries: EntryList::new(alloc, limit as usize)?,
            after: 0,
            stop: None,
            tick: Event::Tick,
        })
    }

    /// Adds a command at the end. It is refused if the commands held and this one are more than the limit, which is
    /// tested first, and if memory runs out. After a fault the journal is as before. No stop may be held.
    pub fn push(&mut self, alloc: Global, tag: Tag, cmd: Cmd) -> Result<(), PushFault>
        requires { stop_at self.old.events ≡ None }
        ensures ok { OnOk result (self.new ≡ followed_by (Do tag cmd) self.old) }
        ensures room { OnOk result (held self.old.events + 1 ≤ self.old.limit) }
        ensures err { OnErr result (self.new ≡ self.old) }
        ensures fault { IfErr result (λ fault. IsRefused self.old 1 fault) }
    {
        if self.held >= self.limit {
            return Err(PushFault::JournalFull { held: self.held });
        }
        self.push_commands(alloc, Event::Do(tag, cmd), 1)?;
        Ok(())
    }

    /// Adds a batch of commands at the end, as one event. There is at least one command. The batch is refused if
    /// the commands held and those of the batch are more than the limit, which is tested first, and if memory runs out.
    /// After a fault the journal is as before. No stop may be held.
    pub fn push_batch(&mut self, alloc: Global, tag: Tag, cmds: &[Cmd]) -> Result<(), PushFault>
        requires running { stop_at self.old.events ≡ None }
        requires some { 0 < length cmds.now }
        ensures ok { OnOk result (self.new ≡ followed_by (Batch tag cmds.now) self.old) }
        ensures room { OnOk result (held self.old.events + length cmds.now ≤ self.old.limit) }
        ensures err { OnErr result (self.new ≡ self.old) }
        ensures fault { IfErr result (λ fault. IsRefused self.old (length cmds.now) fault) }
    {
        let room = (self.limit - self.held) as usize;
        if cmds.len() > room {
            return Err(PushFault::JournalFull { held: self.held });
        }
        let event = Event::Batch(tag, CmdList::copy_of(alloc, cmds)?);
        self.push_commands(alloc, event, cmds.len() as u32)?;
        Ok(())
    }

    /// Adds a command or a batch of `commands` commands at the end. The journal has room for that many, and no stop is held.
    /// If memory runs out, the journal is as before.
    fn push_commands(
        &mut self,
        alloc: Global,
        event: Event,
        commands: u32,
    ) -> Result<(), AllocError>
        requires running { stop_at self.old.events ≡ None }
        requires event { HoldsCommands event }
        requires commands { commands ≡ held_by event }
        requires room { held self.old.events + commands ≤ self.old.limit }
        ensures ok { OnOk result (self.new ≡ followed_by event self.old) }
        ensures err { OnErr result (self.new ≡ self.old) }
    {
        let entry = Entry {
            ticks: self.after,
            event,
        };
        self.entries.push(alloc, entry)?;
        self.after = 0;
        self.held += commands;
        self.before += 1;
        Ok(())
    }

    /// Adds a tick at the end. No stop may be held, and the ticks held must be fewer than 281,474,976,710,656.
    pub fn push_tick(&mut self)
        requires running { stop_at self.old.events ≡ None }
        requires time { ticks self.old.events < MAX_TICKS }
        ensures { self.new ≡ followed_by Tick self.old }
    {
        self.after += 1;
        self.ticks += 1;
        self.before += 1;
    }

    /// Adds the stop at the end. No stop may be held.
    pub fn push_stop(&mut self, tag: Tag)
        requires { stop_at self.old.events ≡ None }
        ensures { self.new ≡ followed_by (Stop tag) self.old }
    {
        self.stop = Some(Event::Stop(tag));
    }

    /// Returns the events in order. A run of ticks, as long as possible, is one item, and each other event is one.
    pub fn events(&self) -> Events<'_>
        ensures { AreRuns result self.now.events }
    {
        Events::new(
            &self.tick,
            self.entries.iter(),
            self.after,
            self.stop.as_ref(),
        )
    }

    /// Returns the events behind a place in order, as [`Journal::events`] does. Of a run of ticks that begins before the
    /// place, only the ticks behind it are returned. The place is one of this journal, from now or earlier.
    ///
    /// Blocks of 1,024 entries before the place are skipped whole, so finding the place takes one step for each of them,
    /// which reads a length.
    pub fn events_since(&self, since: Place) -> Events<'_>
        ensures since { (past later : List Event) → self.now.events ≡ past ++ later → since ≡ passed past → AreRuns result later }
        ensures times { AllByRecursion (λ run. HasItsTimes run.event run.times) result }
        ensures range { IsJournal self.now }
    {
        let mut entries = self.entries.iter_from(since.entries);
        let stop = stop_behind(since.stopped, &self.stop);
        match entries.next() {
            Some(entry) => Events::resumed(
                &self.tick,
                entry.ticks.saturating_sub(since.ticks),
                &entry.event,
                entries,
                self.after,
                stop,
            ),
            None => Events::new(
                &self.tick,
                entries,
                self.after.saturating_sub(since.ticks),
                stop,
            ),
        }
    }

    /// Copies events behind a place into `room`, which is emptied first, moves the place behind those that it copied, and
    /// returns whether they are all that follow. It copies as many runs as fit, each whole: at most 256 runs, and 512
    /// commands of batches. Of a run of ticks that begins before the place, the ticks behind it are a run. The place is one
    /// of this journal, from now or earlier.
    pub fn copy_since(&self, place: &mut Place, room: &mut LogRoom) -> bool
        ensures { (past later : List Event) → self.now.events ≡ past ++ later → place.old ≡ passed past
            → Copies past later result place.new room.new }
    {
        let _limit = self.limit();
        room.clear();
        for run in self.events_since(*place) {
            if !room.add(run.event, run.times) {
                return false;
            }
            place.pass(run.event, run.times);
        }
        true
    }

    /// Returns the number of commands held, at most the limit. Ticks and the stop are no commands.
    pub fn held(&self) -> u32
        ensures value { result ≡ held self.now.events }
        ensures range { IsJournal self.now }
    {
        self.held
    }

    /// Returns the number of ticks held, at most 281,474,976,710,656.
    pub fn ticks(&self) -> u64
        ensures value { result ≡ ticks self.now.events }
        ensures range { IsJournal self.now }
    {
        self.ticks
    }

    /// Returns the position of the stop, which is the number of events before it, and `None` exactly if no stop is
    /// held.
    pub fn stopped(&self) -> Option<u64>
        ensures value { result ≡ stop_at self.now.events }
        ensures range { IsJournal self.now }
    {
        match self.stop {
            Some(_) => Some(self.before),
            None => None,
        }
    }

    /// Returns whether the last event is a tick.
    pub fn ends_in_tick(&self) -> bool
        ensures { result ≡ ends_in_tick self.now.events }
    {
        match self.stop {
            Some(_) => false,
            None => self.after > 0,
        }
    }

    /// Returns the most commands that the journal may hold.
    pub fn limit(&self) -> u32
        ensures { result ≡ self.now.limit }
    {
        self.limit
    }
}

/// Returns the stop, or `None` if there is none or it was passed.
fn stop_behind(passed: bool, stop: &Option<Event>) -> Option<&Event>
    ensures { option_copied result ≡ stop_left passed stop.now }
{
    if passed { None } else { stop.as_ref() }
}

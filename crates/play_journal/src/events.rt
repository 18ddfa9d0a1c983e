//! The events of a journal, read in order.
ghost use Rattle.std.specs.Iterator.{YieldsFirstBy, item_count};
ghost use Rattle.std.specs.Prelude.{◌≡◌, ◌++◌, None, Some, option_copied};
ghost use Rattle.play_types.specs.declared.event.Event.TheVariants.{Tick};
ghost use Rattle.play_journal.specs.Runs.{run_of};
ghost use Rattle.play_journal.specs.Reading.{runs_left, tick_runs};

use crate::entries::Entries;
use play_types::Event;
use std::marker::Model;

/// An event that happened `times` times in a row.
#[derive(Clone, Copy, Debug)]
pub struct EventRun<'a> {
    pub event: &'a Event,
    /// At least 1, and 1 if the event is no tick.
    pub times: u64,
}

/// The runs of a journal that are left, in order. A run of ticks is as long as possible: no two runs of ticks are
/// neighbours.
#[derive(Debug, Drop)]
pub struct Events<'a> {
    // The event of each run of ticks.
    tick: &'a Event,
    // The ticks before the next command or batch that are left, 0 once they were given.
    first: u64,
    // A command or a batch. The ticks before it that were not given yet are those of `first`.
    next: Option<&'a Event>,
    entries: Entries<'a>,
    // The ticks after the last entry, 0 once they were given.
    after: u64,
    stop: Option<&'a Event>,
}

impl<'a> Model for Events<'a> {
    ghost use Rattle.std.specs.Prelude.{◌≡◌, ◌++◌, List, option_copied};
    ghost use Rattle.play_types.specs.declared.event.Event.TheVariants.{Tick};
    ghost use Rattle.play_journal.specs.Runs.{Run};
    ghost use Rattle.play_journal.specs.Reading.{runs_left, tick_runs};

    ghost Value = { List Run };

    ghost view = { λ e. tick_runs e.first ++ runs_left (option_copied e.next) e.entries e.after (option_copied e.stop) };

    ghost invariant = { λ e. e.tick.now ≡ Tick };
}

impl<'a> Events<'a> {
    /// Creates an iterator over the runs of entries, the ticks after them, and a stop. The runs of ticks borrow `tick`,
    /// which is a tick.
    pub(crate) fn new(
        tick: &'a Event,
        entries: Entries<'a>,
        after: u64,
        stop: Option<&'a Event>,
    ) -> Events<'a>
        requires { tick.now ≡ Tick }
        ensures { result ≡ runs_left None entries.entry after (option_copied stop.entry) }
    {
        Events {
            tick,
            first: 0,
            next: None,
            entries,
            after,
            stop,
        }
    }

    /// Creates an iterator over `first` ticks, the event `next`, and then the runs of entries, the ticks after them, and a
    /// stop.
    pub(crate) fn resumed(
        tick: &'a Event,
        first: u64,
        next: &'a Event,
        entries: Entries<'a>,
        after: u64,
        stop: Option<&'a Event>,
    ) -> Events<'a>
        requires { tick.now ≡ Tick }
        ensures { result ≡ tick_runs first ++ runs_left (Some next.entry.now) entries.entry after (option_copied stop.entry) }
    {
        Events {
            tick,
            first,
            next: Some(next),
            entries,
            after,
            stop,
        }
    }
}

impl<'a> Iterator for Events<'a> {
    type Item = EventRun<'a>;

    ghost next_gives = { YieldsFirstBy run_of (λ rest. rest) };

    ghost remaining = { item_count (λ rest. rest) };

    fn next(&mut self) -> Option<EventRun<'a>> {
        if self.first > 0 {
            let times = self.first;
            self.first = 0;
            return Some(EventRun {
                event: self.tick,
                times,
            });
        }
        if let Some(event) = self.next.take() {
            return Some(EventRun { event, times: 1 });
        }
        if let Some(entry) = self.entries.next() {
            if entry.ticks == 0 {
                return Some(EventRun {
                    event: &entry.event,
                    times: 1,
                });
            }
            self.next = Some(&entry.event);
            return Some(EventRun {
                event: self.tick,
                times: entry.ticks,
            });
        }
        if self.after > 0 {
            let times = self.after;
            self.after = 0;
            return Some(EventRun {
                event: self.tick,
                times,
            });
        }
        let event = self.stop.take()?;
        Some(EventRun { event, times: 1 })
    }
}

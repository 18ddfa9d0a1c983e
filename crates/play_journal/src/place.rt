//! Places in a journal.
ghost use Rattle.std.specs.Prelude.{◌≡◌, ◌+◌, ◌<◌, ◌^◌, [], replicate};
ghost use Rattle.play_journal.specs.Places.{passed, passed_more};
ghost use Rattle.play_journal.specs.Runs.{HasItsTimes};

use play_types::Event;
use std::marker::Model;

/// A place in a journal, between two events or at an end. Contracts see the counts of the events before it.
#[derive(Clone, Copy, Debug, PartialEq, Eq)]
pub struct Place {
    // The commands and batches before the place, the ticks after the last of them, and whether the place is behind a stop.
    pub(crate) entries: usize,
    pub(crate) ticks: u64,
    pub(crate) stopped: bool,
}

impl Model for Place {
    ghost use Rattle.play_journal.specs.Places.{Passed};

    ghost Value = { Passed };

    ghost view = { λ p. record { entries = p.entries; ticks = p.ticks; stopped = p.stopped } };

    ghost inverse = { λ v. record { entries = v.entries; ticks = v.ticks; stopped = v.stopped } };
}

impl Place {
    /// Returns the place before the first event.
    pub fn start() -> Place
        ensures { result ≡ passed [] }
    {
        Place {
            entries: 0,
            ticks: 0,
            stopped: false,
        }
    }

    /// Returns whether the place is behind the stop.
    pub fn has_stop(self) -> bool
        ensures { result ≡ self.stopped }
    {
        self.stopped
    }

    /// Moves the place behind a run of events. Its counts saturate, which happens in no journal.
    pub(crate) fn pass(&mut self, event: &Event, times: u64)
        ensures { HasItsTimes event.now times → self.old.entries + 1 < 2 ^ 64 → self.old.ticks + times < 2 ^ 64
            → self.new ≡ passed_more self.old (replicate times event.now) }
    {
        match event {
            Event::Do(..) | Event::Batch(..) => {
                self.entries = self.entries.saturating_add(1);
                self.ticks = 0;
            }
            Event::Tick => self.ticks = self.ticks.saturating_add(times),
            Event::Stop(_) => self.stopped = true,
        }
    }
}

//! Places in a history.
ghost use Rattle.std.specs.Prelude.{◌≡◌, ◌+◌, ◌<◌, ◌≤◌, ◌^◌, replicate};
ghost use Rattle.play_types.specs.History.{ticks};
ghost use Rattle.play_journal.specs.Runs.{HasItsTimes};
ghost use Rattle.view_status.specs.Events.{is_listed};

use play_types::Event;

/// The place of an event: the number of events before it, and how many of those are ticks.
#[derive(Clone, Copy)]
pub(crate) struct Place {
    pub(crate) position: u64,
    pub(crate) tick: u64,
}

impl Place {
    /// Returns the place of the first event.
    pub(crate) fn first() -> Place
        ensures { result ≡ record { position = 0; tick = 0 } }
    {
        Place {
            position: 0,
            tick: 0,
        }
    }

    /// Returns the place after an event that happened `times` times.
    pub(crate) fn after(self, event: &Event, times: u64) -> Place
        requires times { HasItsTimes event.now times }
        requires ticks { self.tick ≤ self.position }
        requires room { self.position + times < 2 ^ 64 }
        ensures position { result.position ≡ self.position + times }
        ensures tick { result.tick ≡ self.tick + ticks (replicate times event.now) }
        ensures ticks { result.tick ≤ result.position }
    {
        let tick = match event {
            Event::Tick => self.tick + times,
            Event::Do(_, _) | Event::Batch(_, _) | Event::Stop(_) => self.tick,
        };
        Place {
            position: self.position + times,
            tick,
        }
    }

    /// Returns whether an event at this place is listed: it is no tick, and not before the position `from`.
    pub(crate) fn lists(self, event: &Event, from: u64) -> bool
        ensures { result ≡ is_listed from (record { position = self.position; tick = self.tick; event = event.now }) }
    {
        match event {
            Event::Tick => false,
            Event::Do(_, _) | Event::Batch(_, _) | Event::Stop(_) => self.position >= from,
        }
    }
}

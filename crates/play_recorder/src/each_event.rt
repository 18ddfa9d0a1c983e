//! The events of a journal, one by one.
ghost use Rattle.std.specs.Prelude.{◌≡◌, None};
ghost use Rattle.std.specs.Iterator.{YieldsFirstRef, item_count};
ghost use Rattle.play_recorder.specs.inner.EachEvent.{HaveEventsLeft, events_left};

use play_journal::{EventRun, Events, Journal};
use play_types::Event;
use std::marker::Model;

/// The remaining events of a journal in order, one by one, also those of a run.
#[derive(Debug, Drop)]
pub(crate) struct EachEvent<'a> {
    // The rest of a run.
    run: Option<EventRun<'a>>,
    runs: Events<'a>,
}

impl<'a> Model for EachEvent<'a> {
    ghost use Rattle.std.specs.Prelude.{List};
    ghost use Rattle.play_types.specs.declared.event.Event.{Event};
    ghost use Rattle.play_recorder.specs.inner.EachEvent.{HaveEventsLeft, events_left};

    ghost Value = { List Event };

    ghost view = { λ e. events_left e.run e.runs };

    ghost invariant = { λ e. HaveEventsLeft e.run e.runs };
}

/// Returns the events of a journal in order.
pub(crate) fn each_event(journal: &Journal) -> EachEvent<'_>
    ensures { result ≡ journal.now.events }
{
    EachEvent {
        run: None,
        runs: journal.events(),
    }
}

impl<'a> Iterator for EachEvent<'a> {
    type Item = &'a Event;

    ghost next_gives = { YieldsFirstRef (λ rest. rest) };

    ghost remaining = { item_count (λ rest. rest) };

    fn next(&mut self) -> Option<&'a Event> {
        let run = match self.run.take() {
            Some(run) => run,
            None => self.runs.next()?,
        };
        if run.times > 1 {
            self.run = Some(EventRun {
                event: run.event,
                times: run.times - 1,
            });
        }
        Some(run.event)
    }
}

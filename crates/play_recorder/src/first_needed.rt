//! The first tick whose frames a film needs.
ghost use Rattle.std.specs.Prelude.{◌≡◌, ◌<◌, ◌≤◌, ◌++◌, ◌∷◌, [], IfOk, None, OnOk, length};
ghost use Rattle.play_types.specs.History.{held, stop_at, ticks};
ghost use Rattle.play_types.specs.Scene.{IsConfigured};
ghost use Rattle.play_types.specs.declared.event.Event.TheVariants.{Tick};
ghost use Rattle.play_types.specs.declared.event.TheConstants.{MAX_TICKS};
ghost use Rattle.stage_core.specs.Stage.{after_event};
ghost use Rattle.play_recorder.specs.Recording.{AreServedEvents};
ghost use Rattle.play_recorder.specs.inner.Depths.{KnowsDepths};
ghost use Rattle.play_recorder.specs.inner.Needed.{first_needed, least_at};
ghost use Rattle.play_recorder.specs.inner.Replay.{CanPlay, events_in, new_stage};

use crate::depth_replay::DepthReplay;
use crate::each_event::each_event;
use crate::film::Film;
use play_journal::Journal;
use play_types::{Config, Event};
use std::alloc::{AllocError, Global};

/// Returns the number of ticks of a journal before the first one whose frames a film needs. That is the first recorded tick, or an
/// earlier one if the channel shows frames of other channels or of its own. The events are played again, but no frame is made.
pub(crate) fn first_needed(
    alloc: Global,
    config: &Config,
    journal: &Journal,
    film: &Film,
) -> Result<u64, AllocError>
    requires channel { IsConfigured (length config.now.channels) film.now.channel }
    requires served { AreServedEvents (length config.now.channels) journal.now.events }
    requires room { held journal.now.events ≤ config.now.journal_limit }
    ensures { IfOk result (λ first. first ≡ first_needed film.now journal.now.events) }
{
    let _held = journal.held();
    let mut look = Look::new(alloc, config, film)?;
    let first = look.first_needed(alloc, journal);
    drop(look);
    first
}

/// The frames that a film needs, by the events so far: the number of ticks before the first needed one.
#[derive(Drop)]
pub(crate) struct Look<'a> {
    pub(crate) film: &'a Film,
    pub(crate) replay: DepthReplay,
    pub(crate) first: u64,
}

impl<'a> Look<'a> {
    /// Creates the look for a film, before the first event, with memory for the live layers and the scenes of all channels.
    fn new(alloc: Global, config: &Config, film: &'a Film) -> Result<Look<'a>, AllocError>
        ensures depths { IfOk result (λ look. KnowsDepths look.replay) }
        ensures new { IfOk result (λ look. look.replay.played.stage ≡ new_stage config.now) }
        ensures film { IfOk result (λ look. look.film.now ≡ film.entry.now) }
        ensures first { IfOk result (λ look. look.first ≡ film.entry.now.first) }
    {
        Ok(Look {
            film,
            replay: DepthReplay::new(alloc, config)?,
            first: film.first,
        })
    }

    /// Plays the events of a journal until the film is over, and returns the number of ticks before the first one whose frames it needs.
    fn first_needed(&mut self, alloc: Global, journal: &Journal) -> Result<u64, AllocError>
        requires depths { KnowsDepths self.old.replay }
        requires new { events_in self.old.replay.played ≡ [] }
        requires first { self.old.first ≡ self.old.film.now.first }
        requires channel { IsConfigured self.old.replay.played.stage.channels self.old.film.now.channel }
        requires can { CanPlay self.old.replay.played.stage journal.now.events }
        ensures { IfOk result (λ first. first ≡ first_needed self.old.film.now journal.now.events) }
    {
        for event in each_event(journal) {
            if self
                .film
                .is_over(self.replay.played.stage.journal().ticks())
            {
                return Ok(self.first);
            }
            self.event(alloc, event)?;
        }
        Ok(self.first)
    }

    /// Plays an event.
    fn event(&mut self, alloc: Global, event: &Event) -> Result<(), AllocError>
        requires depths { KnowsDepths self.old.replay }
        requires channel { IsConfigured self.old.replay.played.stage.channels self.old.film.now.channel }
        requires can { CanPlay self.old.replay.played.stage (events_in self.old.replay.played ++ event.now ∷ []) }
        ensures depths { OnOk result (KnowsDepths self.new.replay) }
        ensures made { OnOk result (self.new.replay.played.stage ≡ after_event event.now self.old.replay.played.stage) }
        ensures film { self.new.film.now ≡ self.old.film.now }
        ensures first { OnOk result (self.new.first ≡ least_at self.old.film.now (events_in self.old.replay.played) event.now self.old.first) }
    {
        match event {
            Event::Tick => {
                self.tick();
                Ok(())
            }
            Event::Do(..) | Event::Batch(..) | Event::Stop(_) => {
                self.replay.event(alloc, event)?;
                Ok(())
            }
        }
    }

    /// Makes the next tick and its scenes. If the tick is recorded, the frames that it needs are taken into account.
    fn tick(&mut self)
        requires depths { KnowsDepths self.old.replay }
        requires channel { IsConfigured self.old.replay.played.stage.channels self.old.film.now.channel }
        requires running { stop_at (events_in self.old.replay.played) ≡ None }
        requires time { ticks (events_in self.old.replay.played) < MAX_TICKS }
        ensures depths { KnowsDepths self.new.replay }
        ensures made { self.new.replay.played.stage ≡ after_event Tick self.old.replay.played.stage }
        ensures film { self.new.film.now ≡ self.old.film.now }
        ensures first { self.new.first ≡ least_at self.old.film.now (events_in self.old.replay.played) Tick self.old.first }
    {
        let before = self.replay.played.stage.journal().ticks();
        self.replay.tick();
        let film = self.film;
        if film.has(before) {
            let depth = self.replay.depths.depth(film.channel);
            self.first = before.saturating_sub(depth).min(self.first);
        }
    }
}

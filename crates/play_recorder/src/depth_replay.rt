//! A history that is played once more, to see how deep its channels are.
ghost use Rattle.std.specs.Prelude.{◌≡◌, ◌<◌, ◌≤◌, ◌++◌, ◌∷◌, [], IfOk, None, OnOk};
ghost use Rattle.play_types.specs.History.{stop_at, ticks};
ghost use Rattle.play_types.specs.declared.event.Event.TheVariants.{Tick};
ghost use Rattle.play_types.specs.declared.event.TheConstants.{MAX_TICKS};
ghost use Rattle.play_types.specs.declared.place.TheConstants.{MAX_CHANNELS};
ghost use Rattle.stage_core.specs.Stage.{after_event};
ghost use Rattle.play_recorder.specs.inner.Depths.{KnowsDepths};
ghost use Rattle.play_recorder.specs.inner.Replay.{CanPlay, events_in, new_stage};

use crate::replay::Replay;
use needed_frames::Depths;
use play_types::{Config, Event};
use std::alloc::{AllocError, Global};

/// A history that is played once more without frames, and the depths of all channels at its last tick.
#[derive(Drop)]
pub(crate) struct DepthReplay {
    pub(crate) played: Replay,
    pub(crate) depths: Depths,
}

impl DepthReplay {
    /// Creates a replay of no events, with memory for the live layers and the scenes of all channels.
    pub(crate) fn new(alloc: Global, config: &Config) -> Result<DepthReplay, AllocError>
        ensures depths { IfOk result KnowsDepths }
        ensures new { IfOk result (λ replay. replay.played.stage ≡ new_stage config.now) }
    {
        Ok(DepthReplay {
            played: Replay::new(alloc, config)?,
            depths: Depths::new(),
        })
    }

    /// Plays an event.
    pub(crate) fn event(&mut self, alloc: Global, event: &Event) -> Result<(), AllocError>
        requires depths { KnowsDepths self.old }
        requires can { CanPlay self.old.played.stage (events_in self.old.played ++ event.now ∷ []) }
        ensures depths { OnOk result (KnowsDepths self.new) }
        ensures made { OnOk result (self.new.played.stage ≡ after_event event.now self.old.played.stage) }
    {
        match event {
            Event::Tick => {
                self.tick();
                Ok(())
            }
            Event::Do(..) | Event::Batch(..) | Event::Stop(_) => {
                self.played.event(alloc, event)?;
                Ok(())
            }
        }
    }

    /// Makes the next tick and its scenes.
    pub(crate) fn tick(&mut self)
        requires depths { KnowsDepths self.old }
        requires running { stop_at (events_in self.old.played) ≡ None }
        requires time { ticks (events_in self.old.played) < MAX_TICKS }
        ensures depths { KnowsDepths self.new }
        ensures few { self.new.played.stage.channels ≤ MAX_CHANNELS }
        ensures made { self.new.played.stage ≡ after_event Tick self.old.played.stage }
    {
        self.played.tick();
        self.depths.tick(&self.played.scenes);
    }
}

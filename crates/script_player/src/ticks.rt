//! The ticks of a player.
ghost use Rattle.std.specs.Prelude.{◌≡◌, ◌+◌, ◌++◌, ◌≤◌, ◌<◌, ◌∷◌, [], OnOk, replicate};
ghost use Rattle.play_types.specs.History.{ticks};
ghost use Rattle.play_types.specs.declared.event.Event.TheVariants.{Tick};
ghost use Rattle.play_types.specs.declared.event.TheConstants.{MAX_TICKS};
ghost use Rattle.play_outside.specs.Gathered.{Adds};
ghost use Rattle.script_player.specs.Display.{IsShownBy};
ghost use Rattle.script_player.specs.Shown.{shown_tick, shown_ticks};
ghost use Rattle.script_player.specs.Player.{IsReady, MakesEvents, WritesText, events_in, playout_in};

use crate::display::{Display, MadeTick};
use crate::ending::Halt;
use crate::player::Player;
use play_outside::{Sent, Sink};

impl Player {
    /// Makes the next `count` ticks, and hands each to `display`. All of their text has been written when it returns `Ok`.
    pub fn tick<D: Display, K: Sink>(
        &mut self,
        count: u32,
        display: &mut D,
        out: &mut K,
    ) -> Result<(), Halt>
        requires ready { IsReady self.old }
        requires time { ticks (events_in self.old) + count ≤ MAX_TICKS }
        requires shown { IsShownBy (D.shows display.old) (D.waiting display.old) self.old }
        ensures ready { OnOk result (IsReady self.new) }
        ensures makes { OnOk result (MakesEvents (replicate count Tick) self.old self.new) }
        ensures setup { self.new.setup ≡ self.old.setup }
        ensures told { D.shown display.new ≡ D.shown display.old }
        ensures shown { OnOk result (IsShownBy (D.shows display.new) (D.waiting display.new) self.new) }
        ensures written { WritesText result (shown_ticks (D.shown display.old) (playout_in self.old) (events_in self.old) count) (K.state out.old) (K.state out.new) }
    {
        for _turn in 0..count {
            self.add_tick(display, out)?;
        }
        display.finish(out)?;
        Ok(())
    }

    /// Makes the next tick, and hands it to `display`.
    fn add_tick<D: Display, K: Sink>(&mut self, display: &mut D, out: &mut K) -> Sent
        requires ready { IsReady self.old }
        requires time { ticks (events_in self.old) < MAX_TICKS }
        requires shown { D.shows display.old self.old.setup (events_in self.old) }
        ensures ready { IsReady self.new }
        ensures makes { MakesEvents (Tick ∷ []) self.old self.new }
        ensures told { D.shown display.new ≡ D.shown display.old }
        ensures shown { D.shows display.new self.new.setup (events_in self.new) }
        ensures added { Adds result (D.waiting display.old ++ shown_tick (D.shown display.old) (playout_in self.old) (events_in self.old)) (D.waiting display.new) (K.state out.old) (K.state out.new) }
    {
        let number = self.stage.tick(&mut self.scenes).unwrap();
        let tick = MadeTick {
            setup: &self.setup,
            digests: self.digests,
            stage: &self.stage,
            scenes: &self.scenes,
            number,
        };
        display.add_tick(tick, out)
    }
}

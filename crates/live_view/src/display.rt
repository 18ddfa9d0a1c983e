//! The display of the ticks of a log.
ghost use Rattle.std.specs.Prelude.{◌≡◌, [], false};
ghost use Rattle.std.specs.Thread.{IsSync};
ghost use Rattle.live_view.specs.View.{AreFresh};
ghost use Rattle.band_render.proofs.Ticks.{represents-other};
ghost use Rattle.history_model.specs.scripts.History.{setup_of};
ghost use Rattle.script_player.specs.Playouts.{playout_of};
ghost use Rattle.script_player.specs.Shown.{Replies};

use band_render::{OpenGate, Renderer};
use play_outside::{Sent, Sink};
use script_player::{Display, MadeTick};
use std::thread::Threads;

/// Makes the frames of each tick as long as it is fresh. Those of all ticks but the last one are overwritten, and nothing is written.
#[derive(Drop)]
pub struct ViewDisplay<R> {
    pub rt: R,
    /// The frames of the last tick, if they are fresh.
    pub renderer: Renderer,
    /// Whether the frames are those of the last tick.
    pub is_fresh: bool,
    /// How many ticks are made with their frames before the display falls behind.
    pub left: u32,
}

impl<R: Threads + Sync + Copy + Drop> Display for ViewDisplay<R> {
    ghost shown = { λ _. Replies };

    ghost shows = { λ display setup events. IsSync R.row × AreFresh display.is_fresh display.renderer setup events };

    ghost waiting = { λ _. [] };

    fn add_tick<K: Sink>(&mut self, tick: MadeTick<'_>, _out: &mut K) -> Sent {
        if self.is_fresh {
            if self.left > 0 {
                self.left -= 1;
                self.renderer
                    .render(&self.rt, tick.scenes, &tick.setup.media, &OpenGate);
            } else {
                self.is_fresh = false;
            }
        }
        Sent::All
    }

    fn finish<K: Sink>(&mut self, _out: &mut K) -> Sent {
        Sent::All
    }

    ghost keeps = { λ display setup events one other last. (last.0, λ is. represents-other (setup_of (playout_of setup false)) events one setup.media display.renderer other (last.1 is)) };
}

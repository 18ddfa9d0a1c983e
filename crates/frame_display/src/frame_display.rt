//! The display of ticks by frames.
ghost use Rattle.std.specs.Prelude.{◌≡◌, ◌≤◌, [], IfOk, false};
ghost use Rattle.std.specs.Thread.{IsSync};
ghost use Rattle.band_render.proofs.Ticks.{represents-other};
ghost use Rattle.history_model.specs.scripts.History.{setup_of};
ghost use Rattle.script_player.specs.Playouts.{playout_of};
ghost use Rattle.script_player.specs.Shown.{Frames};
ghost use Rattle.frame_display.specs.Frames.{ShowsFrames};

use crate::frame_options::FrameOptions;
use crate::tick_frames::TickFrames;
use band_render::{OpenGate, Renderer};
use frame_digests::DigestLines;
use play_outside::{Sent, Sink};
use script_player::{Display, MadeTick};
use server_setup::ServerSetup;
use std::alloc::{AllocError, Global};
use std::thread::Threads;

/// Shows each tick by the frames of all channels, which several threads make. Lines of digests may wait until several ticks were added.
#[derive(Drop)]
pub struct FrameDisplay<'a, R> {
    rt: &'a R,
    renderer: Renderer,
    lines: DigestLines,
}

impl<'a, R: Threads + Sync> FrameDisplay<'a, R> {
    /// Returns a display that has shown no tick, with memory for the frames of all channels and, if `options` ask for digests, for the
    /// frames that wait for theirs.
    pub fn new(
        rt: &'a R,
        alloc: Global,
        setup: &ServerSetup,
        options: FrameOptions,
    ) -> Result<FrameDisplay<'a, R>, AllocError>
        requires some_workers { 1 ≤ options.workers }
        requires few_workers { options.workers ≤ 64 }
        ensures told { IfOk result (λ display. ⟦<FrameDisplay<'a, R> as Display>⟧.shown display ≡ Frames) }
        ensures frames { IfOk result (λ display. ShowsFrames setup.now [] display.renderer) }
        ensures none_waits { IfOk result (λ display. ⟦<FrameDisplay<'a, R> as Display>⟧.waiting display ≡ []) }
    {
        let renderer = Renderer::new(alloc, &setup.config, options.workers)?;
        let lines = if options.digests {
            DigestLines::new(alloc, &setup.config, options.workers)?
        } else {
            DigestLines::without_rooms(alloc)
        };
        Ok(FrameDisplay {
            rt,
            renderer,
            lines,
        })
    }
}

impl<'a, R: Threads + Sync> Display for FrameDisplay<'a, R> {
    ghost shown = { λ _. Frames };

    ghost shows = { λ display setup events. IsSync R.row × ShowsFrames setup events display.renderer };

    ghost waiting = { λ display. display.lines };

    fn add_tick<K: Sink>(&mut self, tick: MadeTick<'_>, out: &mut K) -> Sent {
        self.renderer
            .render(self.rt, tick.scenes, &tick.setup.media, &OpenGate);
        let frames = TickFrames {
            setup: tick.setup,
            digests: tick.digests,
            renderer: &self.renderer,
            tick: tick.number,
        };
        frames.add(self.rt, &mut self.lines, out)
    }

    fn finish<K: Sink>(&mut self, out: &mut K) -> Sent {
        self.lines.finish(self.rt, out)
    }

    ghost keeps = { λ display setup events one other last. (last.0, represents-other (setup_of (playout_of setup false)) events one setup.media display.renderer other last.1) };
}

//! A history that is played once more with its frames.
ghost use Rattle.std.specs.Prelude.{◌≡◌, ◌-◌, ◌<◌, ◌≤◌, ◌++◌, ◌∷◌, [], ℕ, IfOk, None, OnOk, map};
ghost use Rattle.std.specs.List.{range_with_len};
ghost use Rattle.play_types.specs.History.{stop_at, ticks};
ghost use Rattle.play_types.specs.Scene.{IsConfigured};
ghost use Rattle.play_types.specs.declared.event.Event.TheVariants.{Tick};
ghost use Rattle.play_types.specs.declared.event.TheConstants.{MAX_TICKS};
ghost use Rattle.history_model.specs.pictures.Scene.{scene};
ghost use Rattle.history_model.specs.scripts.Output.{raw_frame};
ghost use Rattle.needed_frames.specs.Depth.{depth};
ghost use Rattle.play_recorder.specs.inner.Frames.{Follows, IsReady, bytes_in, channels_in, events_in, setup_in};
ghost use Rattle.play_recorder.specs.inner.Replay.{CanPlay, new_stage};

use crate::replay::Replay;
use band_render::{OpenGate, Renderer};
use clip_format::MediaTable;
use play_types::{Config, Event};
use std::alloc::{AllocError, Global};
use std::thread::Threads;

/// A history that is played once more, and the frames of all channels at its last tick.
#[derive(Drop)]
pub(crate) struct FrameReplay<'a> {
    pub(crate) config: &'a Config,
    pub(crate) media: &'a MediaTable,
    pub(crate) played: Replay,
    pub(crate) renderer: Renderer,
    /// The number of first ticks for which no frames are made.
    pub(crate) skipped: u64,
}

impl<'a> FrameReplay<'a> {
    /// Creates a replay of no events, with memory for the live layers, the scenes and the frames of all channels. `workers` threads make
    /// the frames, but none for the first `skipped` ticks.
    pub(crate) fn new(
        alloc: Global,
        config: &'a Config,
        media: &'a MediaTable,
        workers: u32,
        skipped: u64,
    ) -> Result<FrameReplay<'a>, AllocError>
        requires some_workers { 1 ≤ workers }
        requires few_workers { workers ≤ 64 }
        ensures ready { IfOk result IsReady }
        ensures new { IfOk result (λ replay. replay.played.stage ≡ new_stage config.entry.now) }
        ensures config { IfOk result (λ replay. replay.config.now ≡ config.entry.now) }
        ensures media { IfOk result (λ replay. replay.media.now ≡ media.entry.now) }
        ensures skipped { IfOk result (λ replay. replay.skipped ≡ skipped) }
    {
        let renderer = Renderer::new(alloc, config, workers)?;
        let played = Replay::new(alloc, config)?;
        Ok(FrameReplay {
            config,
            media,
            played,
            renderer,
            skipped,
        })
    }

    /// Plays an event.
    pub(crate) fn event<R: Threads + Sync>(
        &mut self,
        rt: &R,
        alloc: Global,
        event: &Event,
    ) -> Result<(), AllocError>
        requires ready { IsReady self.old }
        requires can { CanPlay self.old.played.stage (events_in self.old ++ event.now ∷ []) }
        ensures ready { OnOk result (IsReady self.new) }
        ensures follows { OnOk result (Follows event.now self.old self.new) }
    {
        match event {
            Event::Tick => {
                self.tick(rt);
                Ok(())
            }
            Event::Do(..) | Event::Batch(..) | Event::Stop(_) => {
                self.played.event(alloc, event)?;
                Ok(())
            }
        }
    }

    /// Makes the next tick, and its frames if it is not skipped. The frame of a channel that needs none of the skipped ones is that of
    /// the history.
    pub(crate) fn tick<R: Threads + Sync>(&mut self, rt: &R)
        requires ready { IsReady self.old }
        requires running { stop_at (events_in self.old) ≡ None }
        requires time { ticks (events_in self.old) < MAX_TICKS }
        ensures ready { IsReady self.new }
        ensures follows { Follows Tick self.old self.new }
        ensures scenes { self.new.played.scenes ≡ map (scene (events_in self.old)) (range_with_len 1 self.old.played.stage.channels) }
        ensures frames { (channel : ℕ) → IsConfigured (channels_in self.old) channel →
            self.old.skipped ≤ ticks (events_in self.old) - depth (events_in self.old) channel →
            bytes_in self.new channel ≡ raw_frame (setup_in self.old) (events_in self.old) channel }
    {
        let before = self.played.stage.journal().ticks();
        self.played.tick();
        if before >= self.skipped {
            self.renderer
                .render(rt, &self.played.scenes, self.media, &OpenGate);
        }
    }
}

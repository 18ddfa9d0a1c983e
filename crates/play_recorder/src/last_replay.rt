//! A history that is played once more, for the frames of its last tick and its depth there.
ghost use Rattle.std.specs.Prelude.{◌≡◌, ◌<◌, ◌≤◌, ◌++◌, ◌∷◌, [], IfOk, None, OnOk};
ghost use Rattle.play_types.specs.History.{stop_at, ticks};
ghost use Rattle.play_types.specs.declared.event.Event.TheVariants.{Tick};
ghost use Rattle.play_types.specs.declared.event.TheConstants.{MAX_TICKS};
ghost use Rattle.play_recorder.specs.inner.Depths.{unneeded};
ghost use Rattle.play_recorder.specs.inner.Frames.{Follows, IsReady, channels_in, events_in};
ghost use Rattle.play_recorder.specs.inner.Last.{KnowsFrameDepths};
ghost use Rattle.play_recorder.specs.inner.Replay.{CanPlay, new_stage, stage_with};

use crate::each_event::each_event;
use crate::frame_replay::FrameReplay;
use band_render::Renderer;
use clip_format::MediaTable;
use needed_frames::Depths;
use play_journal::Journal;
use play_types::{Config, Event};
use std::alloc::{AllocError, Global};
use std::thread::Threads;

/// A history that is played once more with its frames, and the depths of all channels at its last tick.
#[derive(Drop)]
pub(crate) struct LastReplay<'a> {
    pub(crate) frames: FrameReplay<'a>,
    pub(crate) depths: Depths,
}

impl<'a> LastReplay<'a> {
    /// Creates a replay of no events. `workers` threads make the frames, but none for the first `skipped` ticks.
    pub(crate) fn new(
        alloc: Global,
        config: &'a Config,
        media: &'a MediaTable,
        workers: u32,
        skipped: u64,
    ) -> Result<LastReplay<'a>, AllocError>
        requires some_workers { 1 ≤ workers }
        requires few_workers { workers ≤ 64 }
        ensures ready { IfOk result (λ replay. IsReady replay.frames) }
        ensures depths { IfOk result KnowsFrameDepths }
        ensures new { IfOk result (λ replay. replay.frames.played.stage ≡ new_stage config.entry.now) }
        ensures config { IfOk result (λ replay. replay.frames.config.now ≡ config.entry.now) }
        ensures media { IfOk result (λ replay. replay.frames.media.now ≡ media.entry.now) }
        ensures skipped { IfOk result (λ replay. replay.frames.skipped ≡ skipped) }
    {
        Ok(LastReplay {
            frames: FrameReplay::new(alloc, config, media, workers, skipped)?,
            depths: Depths::new(),
        })
    }

    /// Plays the events of a journal, after none.
    pub(crate) fn play<R: Threads + Sync>(
        &mut self,
        rt: &R,
        alloc: Global,
        journal: &Journal,
    ) -> Result<(), AllocError>
        requires ready { IsReady self.old.frames }
        requires depths { KnowsFrameDepths self.old }
        requires new { self.old.frames.played.stage ≡ new_stage self.old.frames.config.now }
        requires can { CanPlay (new_stage self.old.frames.config.now) journal.now.events }
        ensures ready { OnOk result (IsReady self.new.frames) }
        ensures depths { OnOk result (KnowsFrameDepths self.new) }
        ensures config { OnOk result (self.new.frames.config.now ≡ self.old.frames.config.now) }
        ensures media { OnOk result (self.new.frames.media.now ≡ self.old.frames.media.now) }
        ensures skipped { OnOk result (self.new.frames.skipped ≡ self.old.frames.skipped) }
        ensures stage { OnOk result (self.new.frames.played.stage ≡ stage_with self.old.frames.config.now journal.now.events) }
    {
        for event in each_event(journal) {
            self.event(rt, alloc, event)?;
        }
        Ok(())
    }

    /// Plays an event.
    fn event<R: Threads + Sync>(
        &mut self,
        rt: &R,
        alloc: Global,
        event: &Event,
    ) -> Result<(), AllocError>
        requires ready { IsReady self.old.frames }
        requires depths { KnowsFrameDepths self.old }
        requires can { CanPlay self.old.frames.played.stage (events_in self.old.frames ++ event.now ∷ []) }
        ensures ready { OnOk result (IsReady self.new.frames) }
        ensures depths { OnOk result (KnowsFrameDepths self.new) }
        ensures follows { OnOk result (Follows event.now self.old.frames self.new.frames) }
    {
        match event {
            Event::Tick => {
                self.tick(rt);
                Ok(())
            }
            Event::Do(..) | Event::Batch(..) | Event::Stop(_) => {
                self.frames.event(rt, alloc, event)?;
                Ok(())
            }
        }
    }

    /// Makes the next tick, and its frames if it is not skipped.
    fn tick<R: Threads + Sync>(&mut self, rt: &R)
        requires ready { IsReady self.old.frames }
        requires depths { KnowsFrameDepths self.old }
        requires running { stop_at (events_in self.old.frames) ≡ None }
        requires time { ticks (events_in self.old.frames) < MAX_TICKS }
        ensures ready { IsReady self.new.frames }
        ensures depths { KnowsFrameDepths self.new }
        ensures follows { Follows Tick self.old.frames self.new.frames }
    {
        self.frames.tick(rt);
        self.depths.tick(&self.frames.played.scenes);
    }

    /// Returns the number of first ticks whose frames no channel needs at the last tick.
    pub(crate) fn unneeded(&self) -> u64
        requires { KnowsFrameDepths self.now }
        ensures { result ≡ unneeded self.now.frames.played.stage.channels (events_in self.now.frames) }
    {
        let played = &self.frames.played;
        let greatest = self.depths.greatest(played.scenes.channels());
        let ticks = played.stage.journal().ticks();
        ticks.saturating_sub(1).saturating_sub(greatest)
    }

    /// Returns the renderer with the frames of the last tick. The replay is given up.
    pub(crate) fn into_renderer(self) -> Renderer
        ensures { result ≡ self.entry.frames.renderer }
    {
        let FrameReplay {
            played,
            renderer,
            ..
        } = self.frames;
        drop(played);
        renderer
    }
}

//! The frames of the last tick of a history.
ghost use Rattle.std.specs.Prelude.{◌≡◌, ◌≤◌, IfOk, length, map};
ghost use Rattle.play_types.specs.History.{held};
ghost use Rattle.history_model.specs.scripts.History.{channel_size};
ghost use Rattle.play_scene.specs.Picture.{clips_of};
ghost use Rattle.band_render.specs.Histories.{Represents};
ghost use Rattle.band_render.specs.Rendered.{sizes};
ghost use Rattle.play_recorder.specs.Recording.{AreServedEvents};
ghost use Rattle.play_recorder.specs.inner.Depths.{unneeded};

use crate::last_replay::LastReplay;
use band_render::Renderer;
use clip_format::MediaTable;
use play_journal::Journal;
use play_types::Config;
use std::alloc::{AllocError, Global};
use std::thread::Threads;

/// The greatest depth of channels at which one replay is enough: frames seldom show what others showed more than 3 ticks before.
const LIKELY_DEPTH: u64 = 3;

/// What the frames of the last tick are made from: the configuration and the clips of a history, its journal, and the number of threads
/// that make the frames, in the renderer that is returned too.
#[derive(Clone, Copy)]
pub struct LastTickSource<'a> {
    pub config: &'a Config,
    pub media: &'a MediaTable,
    pub journal: &'a Journal,
    pub workers: u32,
}

/// Returns the renderer with the frames and the sounds of all channels at the last tick of a journal, transparent and silent if it has no
/// tick. The events are played again, with the frames of the last ticks alone. If those turn out to need earlier ones, the events are
/// played once more, with the frames from the first needed one on.
///
/// The clips must be those that the history was made with, and the threads 1 to 64. The layers, channels and routes in the journal must
/// be of configured channels, and its commands must be no more than the limit of the configuration's journal.
pub fn last_frames<R: Threads + Sync>(
    rt: &R,
    alloc: Global,
    source: LastTickSource<'_>,
) -> Result<Renderer, AllocError>
    requires some_workers { 1 ≤ source.workers }
    requires few_workers { source.workers ≤ 64 }
    requires served { AreServedEvents (length source.config.now.channels) source.journal.now.events }
    requires room { held source.journal.now.events ≤ source.config.now.journal_limit }
    ensures sizes { IfOk result (λ frames. sizes frames ≡ map channel_size source.entry.config.now.channels) }
    ensures last { IfOk result (λ frames. Represents (record { channels = sizes frames; clips = clips_of source.entry.media.now }) source.entry.journal.now.events source.entry.media.now frames) }
{
    let skipped = source.journal.ticks().saturating_sub(1 + LIKELY_DEPTH);
    let last = source.play(rt, alloc, skipped)?;
    if skipped <= last.unneeded {
        return Ok(last.renderer);
    }
    let unneeded = last.unneeded;
    drop(last);
    let last = source.play(rt, alloc, unneeded)?;
    Ok(last.renderer)
}

/// The frames that were made of the last tick, and the number of first ticks that these do not need.
#[derive(Drop)]
struct LastTick {
    renderer: Renderer,
    unneeded: u64,
}

impl LastTickSource<'_> {
    /// Plays the events, with no frames for the first `skipped` ticks. The frames of the last tick are those of the history if it needs
    /// none of the skipped ones.
    fn play<R: Threads + Sync>(
        &self,
        rt: &R,
        alloc: Global,
        skipped: u64,
    ) -> Result<LastTick, AllocError>
        requires some_workers { 1 ≤ self.now.workers }
        requires few_workers { self.now.workers ≤ 64 }
        requires served { AreServedEvents (length self.now.config.now.channels) self.now.journal.now.events }
        requires room { held self.now.journal.now.events ≤ self.now.config.now.journal_limit }
        ensures sizes { IfOk result (λ last. sizes last.renderer ≡ map channel_size self.now.config.now.channels) }
        ensures unneeded { IfOk result (λ last. last.unneeded ≡ unneeded (length self.now.config.now.channels) self.now.journal.now.events) }
        ensures last { IfOk result (λ last. skipped ≤ unneeded (length self.now.config.now.channels) self.now.journal.now.events
            → Represents (record { channels = sizes last.renderer; clips = clips_of self.now.media.now }) self.now.journal.now.events self.now.media.now last.renderer) }
    {
        let _held = self.journal.held();
        let mut replay = LastReplay::new(alloc, self.config, self.media, self.workers, skipped)?;
        match replay.play(rt, alloc, self.journal) {
            Ok(()) => Ok(LastTick {
                unneeded: replay.unneeded(),
                renderer: replay.into_renderer(),
            }),
            Err(fault) => {
                drop(replay);
                Err(fault)
            }
        }
    }
}

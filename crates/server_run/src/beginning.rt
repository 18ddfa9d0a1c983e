//! What a run begins with.
ghost use Rattle.std.specs.Prelude.{◌≡◌, ◌≤◌, [], IfOk, List, length};
ghost use Rattle.clip_format.specs.Table.{Entry};
ghost use Rattle.play_recorder.specs.Recording.{AreServedEvents};
ghost use Rattle.server_run.specs.Beginning.{IsBeginning, MayGoOn};

use band_render::Renderer;
use clip_format::MediaTable;
use play_recorder::{LastTickSource, last_frames};
use play_ticker::laws;
use play_types::Config;
use stage_core::Stage;
use std::alloc::{AllocError, Global};
use std::thread::Threads;

/// What a run begins with: the stage, and the frames that were shown last.
#[derive(Drop)]
pub struct Beginning {
    pub(crate) stage: Stage,
    pub(crate) renderer: Renderer,
}

impl Beginning {
    /// Creates the beginning of a run without events and with blank frames. The frames of the run are made by `workers` threads, 1 to 64.
    pub fn new(alloc: Global, config: &Config, workers: u32) -> Result<Beginning, AllocError>
        requires some_workers { 1 ≤ workers }
        requires few_workers { workers ≤ 64 }
        ensures begins { IfOk result (λ beginning. (media : List Entry) → IsBeginning config.now media beginning) }
        ensures none { IfOk result (λ beginning. beginning.stage.journal.events ≡ []) }
    {
        laws::frames_from_the_beginning();
        let stage = Stage::new(alloc, config)?;
        let renderer = Renderer::new(alloc, config, workers)?;
        Ok(Beginning { stage, renderer })
    }

    /// Creates the beginning of a run that goes on from the events of a stage, with the frames that were shown at the last tick of them.
    /// `media` has the clips that the events were made with. The frames are made by `workers` threads, 1 to 64, here and in the run.
    ///
    /// The stage must be one of this configuration that was not stopped, and its events such as a script can ask for.
    pub fn after<R: Threads + Sync>(
        rt: &R,
        alloc: Global,
        config: &Config,
        media: &MediaTable,
        workers: u32,
        stage: Stage,
    ) -> Result<Beginning, AllocError>
        requires some_workers { 1 ≤ workers }
        requires few_workers { workers ≤ 64 }
        requires stage { MayGoOn config.now media.now stage }
        requires served { AreServedEvents (length config.now.channels) stage.journal.events }
        ensures begins { IfOk result (IsBeginning config.now media.now) }
        ensures stage { IfOk result (λ beginning. beginning.stage ≡ stage) }
    {
        let _held = stage.journal().held();
        let source = LastTickSource {
            config,
            media,
            journal: stage.journal(),
            workers,
        };
        let renderer = last_frames(rt, alloc, source)?;
        Ok(Beginning { stage, renderer })
    }
}

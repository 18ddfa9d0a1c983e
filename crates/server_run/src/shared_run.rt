//! What the threads of a run share, and what is left when they have ended.
ghost use Rattle.std.specs.Prelude.{◌≡◌, vec_len};
ghost use Rattle.stage_lock.specs.Closing.{AreAll};
ghost use Rattle.server_run.specs.inner.Threads.{HasClosed, HasRoomBack, passes_back};

use crate::connection_workers::release;
use crate::run_threads::{OtherThreads, RunThreads};
use play_outside::{Clock, Devices, Listener, Sink};
use play_types::MediaNames;
use stage_core::Stage;
use stage_lock::{Pass, SharedStage};
use std::sync::Wait;

/// What the threads of a run share, room for the passes and the doors that they own, and the output for the history, which is
/// written after they end.
#[derive(Drop)]
pub(crate) struct SharedRun<D, O> {
    pub(crate) names: MediaNames,
    pub(crate) stage: SharedStage,
    /// Empty, with room for all passes.
    pub(crate) passes: Vec<Pass>,
    /// Empty, with room for all doors.
    pub(crate) doors: Vec<D>,
    pub(crate) history: O,
}

/// What a run has left when its threads have ended.
#[derive(Drop)]
pub(crate) struct ClosedRun<C, D, O> {
    pub(crate) stage: Stage,
    pub(crate) names: MediaNames,
    pub(crate) devices: Devices<C, D, O>,
}

impl<D: Listener, O: Sink> SharedRun<D, O> {
    /// Creates the shared part of a run, with lists that the passes and doors were taken out of.
    pub(crate) fn new(
        names: MediaNames,
        stage: SharedStage,
        passes: Vec<Pass>,
        doors: Vec<D>,
        history: O,
    ) -> SharedRun<D, O>
        ensures { result ≡ record { names = names; stage = stage; passes = passes; doors = doors; history = history } }
    {
        SharedRun {
            names,
            stage,
            passes,
            doors,
            history,
        }
    }

    /// Closes the stage with the passes of the threads, which have ended, and puts the devices together again.
    pub(crate) fn close<R: Wait, C: Clock>(
        self,
        rt: &R,
        threads: RunThreads<C, D, O>,
    ) -> ClosedRun<C, D, O>
        requires room { HasRoomBack (vec_len threads.others.connection_workers) self }
        requires passes { AreAll self.stage (passes_back threads) }
        ensures { HasClosed self threads result }
    {
        let SharedRun {
            names,
            stage,
            mut passes,
            mut doors,
            history,
        } = self;
        let RunThreads { ticker, others } = threads;
        let OtherThreads {
            connection_workers,
            log,
        } = others;
        let (log_pass, log) = log.into_parts();
        let (pass, clock, outs) = ticker.into_parts();
        passes.push_reserved(log_pass);
        passes.push_reserved(pass);
        release(connection_workers, &mut passes, &mut doors);
        ClosedRun {
            stage: stage.close(rt, passes),
            names,
            devices: Devices {
                clock,
                doors,
                outs,
                history,
                log,
            },
        }
    }
}

//! The memory of a run, which is allocated before the first call on a device.
ghost use Rattle.std.specs.Prelude.{◌≡◌, ◌+◌, ◌<◌, ◌≤◌, [], All, IfOk, None, length, vec_capacity, vec_len};
ghost use Rattle.clip_format.specs.Table.{media_names};
ghost use Rattle.play_types.specs.Config.{IsConfig};
ghost use Rattle.play_types.specs.History.{stop_at};
ghost use Rattle.play_types.specs.Media.{IsMediaName};
ghost use Rattle.history_replay.specs.Replay.{IsTextName};
ghost use Rattle.stage_lock.specs.Calls.{new_passes};
ghost use Rattle.stage_lock.specs.Views.{sizes_of};
ghost use Rattle.play_outside.specs.declared.listener.TheConstants.{MOST_AWAY};
ghost use Rattle.server_run.specs.Beginning.{IsBeginning, program_from};
ghost use Rattle.server_run.specs.inner.Threads.{HasBegun, HasRoomFor, IsRunMemory, counts_of, sessions_in};
ghost use Rattle.server_run.specs.inner.Workers.{MayWork, door_states};

use crate::beginning::Beginning;
use crate::connection_workers::{ConnectionWorker, engage};
use crate::log_thread::LogThread;
use crate::run_threads::{OtherThreads, RunThreads};
use crate::shared_run::SharedRun;
use crate::ticker_thread::TickerThread;
use crate::worker_session::{WorkerSession, sessions};
use band_render::Renderer;
use clip_format::MediaTable;
use play_journal::LogRoom;
use play_outside::{Clock, Devices, Listener, MOST_AWAY, Sink};
use play_types::{Config, MediaNames};
use scene_pipe::ScenePipe;
use stage_core::Stage;
use stage_lock::{Pass, SharedStage};
use std::alloc::{AllocError, Global};

/// All that a run needs besides its devices.
#[derive(Drop)]
pub(crate) struct RunMemory<D> {
    pub(crate) names: MediaNames,
    pub(crate) renderer: Renderer,
    /// The pipe that carries the scenes of each tick to the renderer.
    pub(crate) pipe: ScenePipe,
    pub(crate) stage: SharedStage,
    /// The pass of the ticker, then one for each connection worker, and then that of the log.
    pub(crate) passes: Vec<Pass>,
    /// A session for each connection worker.
    pub(crate) sessions: Vec<WorkerSession>,
    /// Empty, with room for one connection worker per door.
    pub(crate) connection_workers: Vec<ConnectionWorker<D>>,
    /// The buffer that the log copies events into.
    pub(crate) log_room: LogRoom,
}

impl<D: Listener> RunMemory<D> {
    /// Allocates the memory for a run that goes on from a beginning.
    pub(crate) fn take(
        alloc: Global,
        config: &Config,
        media: &MediaTable,
        beginning: Beginning,
    ) -> Result<RunMemory<D>, AllocError>
        requires { IsBeginning config.now media.now beginning }
        ensures { IfOk result (IsRunMemory (program_from config.now media.now beginning.stage)) }
    {
        let room = RunRoom::new(alloc, config, media)?;
        let Beginning { stage, renderer } = beginning;
        let _ticks = stage.journal().ticks();
        let shared = share(alloc, config, stage)?;
        let RunStage {
            stage,
            passes,
            sessions,
        } = shared;
        let RunRoom {
            names,
            pipe,
            connection_workers,
            log_room,
        } = room;
        Ok(RunMemory {
            names,
            renderer,
            pipe,
            stage,
            passes,
            sessions,
            connection_workers,
            log_room,
        })
    }

    /// Divides this memory and `devices` between the threads of the run and what they share.
    pub(crate) fn begin<C: Clock, O: Sink>(
        self,
        devices: Devices<C, D, O>,
    ) -> (RunThreads<C, D, O>, SharedRun<D, O>)
        requires memory { HasRoomFor (vec_len devices.doors) self }
        requires may_come { All (λ door. (D.state door).away < MOST_AWAY) devices.doors.items }
        ensures begun { HasBegun self devices result }
        ensures may_work { All (MayWork (door_states D.state D.Line.state) self.stage) result.0.others.connection_workers.items }
    {
        let RunMemory {
            names,
            renderer,
            pipe,
            stage,
            mut passes,
            sessions,
            mut connection_workers,
            log_room,
        } = self;
        let Devices {
            clock,
            mut doors,
            outs,
            history,
            log,
        } = devices;
        let log_pass = passes.pop().unwrap();
        let log = LogThread::new(log_pass, log_room, log);
        engage(&mut connection_workers, &mut passes, sessions, &mut doors);
        let pass = passes.pop().unwrap();
        let ticker = TickerThread::new(pass, renderer, pipe, clock, outs);
        let others = OtherThreads {
            connection_workers,
            log,
        };
        (
            RunThreads { ticker, others },
            SharedRun::new(names, stage, passes, doors, history),
        )
    }
}

/// Reads each name, which shows that it is text and that its numbers are in their ranges.
fn read_names(names: &MediaNames)
    ensures ranges { All IsMediaName names.now }
    ensures texts { All IsTextName names.now }
{
    for at in 0..names.len() {
        let _ = names.get(at).unwrap().name().as_str();
    }
}

/// The memory of a run besides its stage and its frames.
#[derive(Drop)]
struct RunRoom<D> {
    names: MediaNames,
    pipe: ScenePipe,
    connection_workers: Vec<ConnectionWorker<D>>,
    log_room: LogRoom,
}

impl<D: Listener> RunRoom<D> {
    /// Allocates the memory, with room for one connection worker per door.
    fn new(alloc: Global, config: &Config, media: &MediaTable) -> Result<RunRoom<D>, AllocError>
        ensures config { IfOk result (λ room. IsConfig config.now) }
        ensures names { IfOk result (λ room. room.names ≡ media_names media.now) }
        ensures ranges { IfOk result (λ room. All IsMediaName room.names) }
        ensures texts { IfOk result (λ room. All IsTextName room.names) }
        ensures pipe { IfOk result (λ room. room.pipe ≡ length config.now.channels) }
        ensures empty { IfOk result (λ room. room.connection_workers.items ≡ []) }
        ensures many { IfOk result (λ room. config.now.connections ≤ vec_capacity room.connection_workers) }
    {
        let names = media.names(alloc)?;
        read_names(&names);
        let pipe = ScenePipe::new(alloc, config)?;
        let connection_workers = Vec::with_capacity(alloc, config.connections() as usize)?;
        let log_room = LogRoom::new(alloc)?;
        Ok(RunRoom {
            names,
            pipe,
            connection_workers,
            log_room,
        })
    }
}

/// A stage that is shared by the threads of a run, with what they need of it.
struct RunStage {
    stage: SharedStage,
    /// The pass of the ticker, then one for each connection worker, and then that of the log.
    passes: Vec<Pass>,
    /// A session for each connection worker.
    sessions: Vec<WorkerSession>,
}

/// Shares a stage, with a pass for the ticker, one for each connection worker, and one for the log, and a session for each connection
/// worker, which is counted from the last one of the stage's events on.
fn share(alloc: Global, config: &Config, stage: Stage) -> Result<RunStage, AllocError>
    requires { stop_at stage.journal.events ≡ None }
    ensures sizes { IfOk result (λ shared. shared.stage.sizes ≡ sizes_of stage (config.now.connections + 2)) }
    ensures passes { IfOk result (λ shared. shared.passes.items ≡ new_passes shared.stage) }
    ensures sessions { IfOk result (λ shared. counts_of shared.sessions.items ≡ sessions_in stage.journal.events config.now.connections) }
{
    let sessions = sessions(alloc, stage.journal(), config.connections())?;
    match SharedStage::share(alloc, stage, config.connections() + 2) {
        Ok((stage, passes)) => Ok(RunStage {
            stage,
            passes,
            sessions,
        }),
        Err(_stage) => Err(AllocError),
    }
}

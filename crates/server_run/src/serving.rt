//! A run of the server.
ghost use Rattle.std.specs.Prelude.{◌≡◌, ◌<◌, ◌≤◌, ◌||◌, [], All, length, vec_len};
ghost use Rattle.std.specs.List.{list_any};
ghost use Rattle.play_outside.specs.declared.listener.TheConstants.{MOST_AWAY};
ghost use Rattle.server_run.specs.Beginning.{IsBeginning, program_from};
ghost use Rattle.server_run.specs.Doors.{is_door_fault};
ghost use Rattle.server_run.specs.Run.{Serves, ends_so, is_cut, is_tick_fault};
ghost use Rattle.server_run.specs.Devices.{device_states};
ghost use Rattle.server_run.specs.inner.Threads.{IsRunMemory, program_of_memory};

use crate::beginning::Beginning;
use crate::connection_workers::ConnectionWorker;
use crate::history::write_history;
use crate::run_memory::RunMemory;
use crate::served::{ServeEnd, Served};
use crate::shared_run::ClosedRun;
use clip_format::MediaTable;
use conn_worker::{Server, WorkEnd};
use play_outside::{Clock, Devices, Listener, MOST_AWAY, Rest, Sent};
use play_ticker::TickEnd;
use play_types::Config;
use std::alloc::Global;
use std::sync::Wait;
use std::thread::Threads;

/// Serves the clients of all doors beside a ticker, until the stage is stopped and all links have ended, and then writes
/// the text of the history. During the run the history is written to the log, in pieces.
///
/// There must be as many doors as the configuration has connections, and as many outputs as it has channels. `workers`, 1 to 64, is
/// the number of threads that make the frames of a tick. The memory of the run is allocated first: on `OutOfMemory` no device has
/// been called, and the devices are returned unchanged. The memory of a command is allocated when a client sends the command; if
/// memory runs out then, the reply reports it.
///
/// The run has one history. It explains each link that a door was given back. Each output takes the frames of the ticks of the
/// history, unless an output fails. The text of the history is written to the output for the history, and the log has the history, or
/// a prefix of it if a write of the log failed. A log that fails ends nothing else. `DeviceFault` is returned only if a device failed.
pub fn serve<R: Threads + Wait + Sync, C: Clock, D: Listener, O: Rest + Send>(
    rt: &R,
    alloc: Global,
    config: &Config,
    media: &MediaTable,
    workers: u32,
    devices: Devices<C, D, O>,
) -> Served<C, D, O>
    requires some_workers { 1 ≤ workers }
    requires few_workers { workers ≤ 64 }
    requires doors { vec_len devices.doors ≡ config.now.connections }
    requires outs { vec_len devices.outs ≡ length config.now.channels }
    requires may_come { All (λ door. (D.state door).away < MOST_AWAY) devices.doors.items }
    ensures { Serves (device_states C.state D.state O.state) D.Line.state
        (record { config = config.now; media = media.now; given = [] }) result.end (devices, result.devices) }
{
    match Beginning::new(alloc, config, workers) {
        Ok(beginning) => serve_from(rt, alloc, config, media, beginning, devices),
        Err(_) => Served {
            devices,
            end: ServeEnd::OutOfMemory,
        },
    }
}

/// Does what [`serve`] does, in a run that goes on from a beginning.
///
/// The history of the run begins with the events of the beginning, and its text and its log have them too. The sessions of each door are
/// counted from the last one that these events name on, and the first tick shows by routes what was on air at the last one of them.
pub fn serve_from<R: Threads + Wait + Sync, C: Clock, D: Listener, O: Rest + Send>(
    rt: &R,
    alloc: Global,
    config: &Config,
    media: &MediaTable,
    beginning: Beginning,
    devices: Devices<C, D, O>,
) -> Served<C, D, O>
    requires begins { IsBeginning config.now media.now beginning }
    requires doors { vec_len devices.doors ≡ config.now.connections }
    requires outs { vec_len devices.outs ≡ length config.now.channels }
    requires may_come { All (λ door. (D.state door).away < MOST_AWAY) devices.doors.items }
    ensures { Serves (device_states C.state D.state O.state) D.Line.state
        (program_from config.now media.now beginning.stage) result.end (devices, result.devices) }
{
    match RunMemory::take(alloc, config, media, beginning) {
        Ok(memory) => run(rt, alloc, config, media, memory, devices),
        Err(_) => Served {
            devices,
            end: ServeEnd::OutOfMemory,
        },
    }
}

/// Runs the threads, and writes the text of the history when all have ended.
fn run<R: Threads + Wait + Sync, C: Clock, D: Listener, O: Rest + Send>(
    rt: &R,
    alloc: Global,
    config: &Config,
    media: &MediaTable,
    memory: RunMemory<D>,
    devices: Devices<C, D, O>,
) -> Served<C, D, O>
    requires memory { IsRunMemory (program_of_memory config.now media.now memory) memory }
    requires doors { vec_len devices.doors ≡ config.now.connections }
    requires outs { vec_len devices.outs ≡ length config.now.channels }
    requires may_come { All (λ door. (D.state door).away < MOST_AWAY) devices.doors.items }
    ensures { Serves (device_states C.state D.state O.state) D.Line.state
        (program_of_memory config.now media.now memory) result.end (devices, result.devices) }
{
    let (mut threads, shared) = memory.begin(devices);
    let server = Server {
        alloc,
        stage: &shared.stage,
        config,
        media: &shared.names,
    };
    let (tick_end, logged) = threads.run(rt, &server, media);
    let door_failed = door_failed(threads.others.connection_workers.as_slice());
    let ClosedRun {
        stage,
        names,
        mut devices,
    } = shared.close(rt, threads);
    let _held = stage.journal().held();
    let written = write_history(stage.journal(), &names, &mut devices.history);
    Served {
        devices,
        end: end_of(tick_end, door_failed, written, logged),
    }
}

/// Returns `DeviceFault` if a device failed, and `Ended` otherwise.
fn end_of(tick_end: TickEnd, door_failed: bool, written: Sent, logged: Sent) -> ServeEnd
    ensures { result ≡ ends_so (is_tick_fault tick_end || (door_failed || (is_cut written || is_cut logged))) }
{
    if ticker_failed(tick_end) || door_failed || was_cut(written) || was_cut(logged) {
        ServeEnd::DeviceFault
    } else {
        ServeEnd::Ended
    }
}

/// Returns whether the clock or an output failed.
fn ticker_failed(tick_end: TickEnd) -> bool
    ensures { result ≡ is_tick_fault tick_end }
{
    matches!(tick_end, TickEnd::ClockFault | TickEnd::OutFault { .. })
}

/// Returns whether a write of the text of the history, or of the log, failed.
fn was_cut(sent: Sent) -> bool
    ensures { result ≡ is_cut sent }
{
    matches!(sent, Sent::Failed)
}

/// Returns whether a door failed.
fn door_failed<D>(connection_workers: &[ConnectionWorker<D>]) -> bool
    ensures { result ≡ list_any (λ worker. is_door_fault worker.end) connection_workers.now }
{
    connection_workers
        .iter()
        .any(|worker| matches!(worker.end, WorkEnd::DoorFault))
}

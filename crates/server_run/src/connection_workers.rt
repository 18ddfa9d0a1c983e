//! The connection workers, a thread for each.
ghost use Rattle.std.specs.Prelude.{◌≡◌, ◌∷◌, ◌++◌, [], ◌+◌, ◌<◌, ◌≤◌, All, length, map, reverse, vec_len, vec_capacity};
ghost use Rattle.std.specs.List.{AllZip};
ghost use Rattle.std.specs.Thread.{IsSync};
ghost use Rattle.stage_lock.specs.Views.{SharedView};
ghost use Rattle.conn_worker.specs.Server.{HasStageOfConfig};
ghost use Rattle.server_run.specs.inner.Threads.{counts_of, sessions_in, ticker_pass, worker_passes};
ghost use Rattle.server_run.specs.inner.Workers.{HasWorkedAt, MayCome, MayWork, door_states};

use crate::worker_session::WorkerSession;
use conn_worker::{Server, WorkEnd};
use play_outside::Listener;
use play_session::Session;
use stage_lock::Pass;
use std::sync::Wait;
use std::thread::{Threads, join_mut};

/// A connection worker: its pass, its session, the number of the last session that was used before, the door whose links it serves, and
/// how its work ended.
#[derive(Drop)]
pub(crate) struct ConnectionWorker<D> {
    pub(crate) pass: Pass,
    pub(crate) session: Session,
    pub(crate) served: u32,
    pub(crate) door: D,
    pub(crate) end: WorkEnd,
}

impl<D: Listener> ConnectionWorker<D> {
    /// Serves the links of the door, one after another, each as the next session.
    fn work<R: Wait>(&mut self, rt: &R, server: &Server<'_>)
        requires stage { HasStageOfConfig server.now }
        requires may_work { MayWork (door_states D.state D.Line.state) server.now.stage.now self.old }
        ensures { HasWorkedAt (door_states D.state D.Line.state) server.now self.old self.new }
    {
        let end = server.work_from(
            rt,
            &mut self.pass,
            &mut self.session,
            &mut self.door,
            self.served,
        );
        self.end = end;
    }
}

/// Moves each door, with the last pass and session, into a connection worker, the last door first. There must be room for all workers.
pub(crate) fn engage<D: Listener>(
    connection_workers: &mut Vec<ConnectionWorker<D>>,
    passes: &mut Vec<Pass>,
    mut sessions: Vec<WorkerSession>,
    doors: &mut Vec<D>,
)
    requires none { connection_workers.old.items ≡ [] }
    requires room { vec_len doors.old ≤ vec_capacity connection_workers.old }
    requires passes { vec_len doors.old ≤ vec_len passes.old }
    requires sessions { vec_len sessions ≡ vec_len doors.old }
    ensures connection_workers { vec_len connection_workers.new ≡ vec_len doors.old }
    ensures passes { passes.old.items ≡ passes.new.items ++ map (λ worker. worker.pass) (reverse connection_workers.new.items) }
    ensures doors { doors.old.items ≡ map (λ worker. worker.door) (reverse connection_workers.new.items) }
    ensures none_left { doors.new.items ≡ [] }
    ensures passes_room { vec_capacity passes.new ≡ vec_capacity passes.old }
    ensures doors_room { vec_capacity doors.new ≡ vec_capacity doors.old }
    ensures may_work { (stage : SharedView) → passes.old.items ≡ ticker_pass stage ∷ worker_passes stage (vec_len doors.old)
        → counts_of sessions.items ≡ sessions_in stage.sizes.given (vec_len doors.old) → All (MayCome D.state) doors.old.items
        → All (MayWork (door_states D.state D.Line.state) stage) connection_workers.new.items }
{
    while let Some(door) = doors.pop() {
        let pass = passes.pop().unwrap();
        let WorkerSession { session, served } = sessions.pop().unwrap();
        connection_workers.push_reserved(ConnectionWorker {
            pass,
            session,
            served,
            door,
            end: WorkEnd::Closed,
        });
    }
}

/// Moves the passes and doors of the connection workers back, the last worker first. Both lists must have room for them.
pub(crate) fn release<D: Listener>(
    mut connection_workers: Vec<ConnectionWorker<D>>,
    passes: &mut Vec<Pass>,
    doors: &mut Vec<D>,
)
    requires passes { vec_len passes.old + vec_len connection_workers ≤ vec_capacity passes.old }
    requires doors { vec_len doors.old + vec_len connection_workers ≤ vec_capacity doors.old }
    ensures passes { passes.new.items ≡ passes.old.items ++ map (λ worker. worker.pass) (reverse connection_workers.items) }
    ensures doors { doors.new.items ≡ doors.old.items ++ map (λ worker. worker.door) (reverse connection_workers.items) }
{
    while let Some(worker) = connection_workers.pop() {
        let ConnectionWorker { pass, door, .. } = worker;
        passes.push_reserved(pass);
        doors.push_reserved(door);
    }
}

/// Serves the links of all doors concurrently.
#[cycle(connection_workers)]
#[tactic(auto, using(crate::proofs::AllZip::all_zip_halves))]
pub(crate) fn work_all<R: Threads + Wait + Sync, D: Listener>(
    rt: &R,
    server: &Server<'_>,
    connection_workers: &mut [ConnectionWorker<D>],
)
    requires stage { HasStageOfConfig server.now }
    requires may_work { All (MayWork (door_states D.state D.Line.state) server.now.stage.now) connection_workers.old }
    ensures { AllZip (HasWorkedAt (door_states D.state D.Line.state) server.now) connection_workers.old connection_workers.new }
{
    match connection_workers {
        [] => {}
        [worker] => worker.work(rt, server),
        _ => {
            let (first, last) = connection_workers.split_at_mut(connection_workers.len() / 2);
            work_both(rt, server, first, last);
        }
    }
}

/// Serves the links of two groups of doors concurrently.
#[cycle(connection_workers)]
fn work_both<R: Threads + Wait + Sync, D: Listener>(
    rt: &R,
    server: &Server<'_>,
    first: &mut [ConnectionWorker<D>],
    last: &mut [ConnectionWorker<D>],
)
    requires stage { HasStageOfConfig server.now }
    requires some { (0 < length first.old) × (0 < length last.old) }
    requires first { All (MayWork (door_states D.state D.Line.state) server.now.stage.now) first.old }
    requires last { All (MayWork (door_states D.state D.Line.state) server.now.stage.now) last.old }
    ensures first { AllZip (HasWorkedAt (door_states D.state D.Line.state) server.now) first.old first.new }
    ensures last { AllZip (HasWorkedAt (door_states D.state D.Line.state) server.now) last.old last.new }
{
    join_mut(
        rt,
        &mut ||
            requires { IsSync R.row × HasStageOfConfig server.now × All (MayWork (door_states D.state D.Line.state) server.now.stage.now) first.now }
            ensures { AllZip (HasWorkedAt (door_states D.state D.Line.state) server.entry.now) first.entry.now first.exit.now }
        { work_all(rt, server, first) },
        &mut ||
            requires { IsSync R.row × HasStageOfConfig server.now × All (MayWork (door_states D.state D.Line.state) server.now.stage.now) last.now }
            ensures { AllZip (HasWorkedAt (door_states D.state D.Line.state) server.entry.now) last.entry.now last.exit.now }
        { work_all(rt, server, last) },
    );
}

//! The threads of a run.
ghost use Rattle.std.specs.Prelude.{All};
ghost use Rattle.std.specs.List.{AllZip};
ghost use Rattle.std.specs.Thread.{IsSync};
ghost use Rattle.conn_worker.specs.Server.{HasStageOfConfig};
ghost use Rattle.play_ticker.specs.Frames.{setup_for};
ghost use Rattle.server_run.specs.inner.Threads.{HasLogged, HasTicked, IsLogOf, IsNewTicker, RanBeside, ticker_states};
ghost use Rattle.server_run.specs.inner.Workers.{HasWorkedAt, MayWork, door_states};

use crate::connection_workers::{ConnectionWorker, work_all};
use crate::log_thread::LogThread;
use crate::ticker_thread::TickerThread;
use clip_format::MediaTable;
use conn_worker::Server;
use play_outside::{Clock, Listener, Rest, Sent, Sink};
use play_ticker::TickEnd;
use std::sync::Wait;
use std::thread::{Threads, join_mut};

/// What the threads of a run own: the ticker's part, and that of the other threads.
#[derive(Drop)]
pub(crate) struct RunThreads<C, D, O> {
    pub(crate) ticker: TickerThread<C, O>,
    pub(crate) others: OtherThreads<D, O>,
}

/// What the threads other than the ticker's own: the connection workers, and the log.
#[derive(Drop)]
pub(crate) struct OtherThreads<D, O> {
    pub(crate) connection_workers: Vec<ConnectionWorker<D>>,
    pub(crate) log: LogThread<O>,
}

impl<C: Clock, D: Listener, O: Rest + Send> RunThreads<C, D, O> {
    /// Runs the ticker, the connection workers and the log concurrently, and returns how the ticks ended and whether the log was
    /// wholly written.
    pub(crate) fn run<R: Threads + Wait + Sync>(
        &mut self,
        rt: &R,
        server: &Server<'_>,
        media: &MediaTable,
    ) -> (TickEnd, Sent)
        requires stage { HasStageOfConfig server.now }
        requires ticker { IsNewTicker server.now.stage.now media.now self.old.ticker }
        requires connection_workers { All (MayWork (door_states D.state D.Line.state) server.now.stage.now) self.old.others.connection_workers.items }
        requires log { IsLogOf server.now.stage.now self.old.others.log }
        ensures { RanBeside (ticker_states C.state O.state) (door_states D.state D.Line.state) (setup_for self.old.ticker.renderer media.now) server.now
            (result.0, result.1, self.old, self.new) }
    {
        run_beside(rt, server, media, &mut self.ticker, &mut self.others)
    }
}

impl<D: Listener, O: Rest + Send> OtherThreads<D, O> {
    /// Serves the links of all doors while the log is kept, and returns whether the log was wholly written.
    fn run<R: Threads + Wait + Sync>(&mut self, rt: &R, server: &Server<'_>) -> Sent
        requires stage { HasStageOfConfig server.now }
        requires connection_workers { All (MayWork (door_states D.state D.Line.state) server.now.stage.now) self.old.connection_workers.items }
        requires log { IsLogOf server.now.stage.now self.old.log }
        ensures worked { AllZip (HasWorkedAt (door_states D.state D.Line.state) server.now) self.old.connection_workers.items self.new.connection_workers.items }
        ensures logged { HasLogged O.state server.now.stage.now.sizes.given server.now.media.now result (self.old.log, self.new.log) }
    {
        work_and_log(
            rt,
            server,
            self.connection_workers.as_mut_slice(),
            &mut self.log,
        )
    }
}

/// Runs the ticker beside the other threads, and returns how the ticks ended and whether the log was wholly written. The type of the
/// output for the log is a parameter of its own because the borrow checker does not cover two threads that write through one type
/// parameter.
fn run_beside<R: Threads + Wait + Sync, C: Clock, D: Listener, O: Sink + Send, L: Rest + Send>(
    rt: &R,
    server: &Server<'_>,
    media: &MediaTable,
    ticker: &mut TickerThread<C, O>,
    others: &mut OtherThreads<D, L>,
) -> (TickEnd, Sent)
    requires stage { HasStageOfConfig server.now }
    requires ticker { IsNewTicker server.now.stage.now media.now ticker.old }
    requires connection_workers { All (MayWork (door_states D.state D.Line.state) server.now.stage.now) others.old.connection_workers.items }
    requires log { IsLogOf server.now.stage.now others.old.log }
    ensures ticked { HasTicked (ticker_states C.state O.state) (setup_for ticker.old.renderer media.now) server.now.stage.now result.0 (ticker.old, ticker.new) }
    ensures worked { AllZip (HasWorkedAt (door_states D.state D.Line.state) server.now) others.old.connection_workers.items others.new.connection_workers.items }
    ensures logged { HasLogged L.state server.now.stage.now.sizes.given server.now.media.now result.1 (others.old.log, others.new.log) }
{
    let (tick_end, logged) = join_mut(
        rt,
        &mut || -> TickEnd
            requires { IsSync R.row × IsNewTicker server.now.stage.now media.now ticker.now }
            ensures { HasTicked (ticker_states C.state O.state) (setup_for ticker.entry.now.renderer media.entry.now) server.entry.now.stage.now result (ticker.entry.now, ticker.exit.now) }
        { ticker.run(rt, server.stage, media) },
        &mut || -> Sent
            requires { IsSync R.row × HasStageOfConfig server.now × All (MayWork (door_states D.state D.Line.state) server.now.stage.now) others.now.connection_workers.items × IsLogOf server.now.stage.now others.now.log }
            ensures { AllZip (HasWorkedAt (door_states D.state D.Line.state) server.entry.now) others.entry.now.connection_workers.items others.exit.now.connection_workers.items
                × HasLogged L.state server.entry.now.stage.now.sizes.given server.entry.now.media.now result (others.entry.now.log, others.exit.now.log) }
        { others.run(rt, server) },
    );
    (tick_end, logged)
}

/// Serves the links of all doors while the log is kept, and returns whether the log was wholly written.
fn work_and_log<R: Threads + Wait + Sync, D: Listener, O: Rest + Send>(
    rt: &R,
    server: &Server<'_>,
    connection_workers: &mut [ConnectionWorker<D>],
    log: &mut LogThread<O>,
) -> Sent
    requires stage { HasStageOfConfig server.now }
    requires connection_workers { All (MayWork (door_states D.state D.Line.state) server.now.stage.now) connection_workers.old }
    requires log { IsLogOf server.now.stage.now log.old }
    ensures worked { AllZip (HasWorkedAt (door_states D.state D.Line.state) server.now) connection_workers.old connection_workers.new }
    ensures logged { HasLogged O.state server.now.stage.now.sizes.given server.now.media.now result (log.old, log.new) }
{
    let ((), logged) = join_mut(
        rt,
        &mut ||
            requires { IsSync R.row × HasStageOfConfig server.now × All (MayWork (door_states D.state D.Line.state) server.now.stage.now) connection_workers.now }
            ensures { AllZip (HasWorkedAt (door_states D.state D.Line.state) server.entry.now) connection_workers.entry.now connection_workers.exit.now }
        { work_all(rt, server, connection_workers) },
        &mut || -> Sent
            requires { IsLogOf server.now.stage.now log.now }
            ensures { HasLogged O.state server.entry.now.stage.now.sizes.given server.entry.now.media.now result (log.entry.now, log.exit.now) }
        { log.run(rt, server.stage, server.media) },
    );
    logged
}

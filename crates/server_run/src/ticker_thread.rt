//! What the thread of the ticker owns.
ghost use Rattle.std.specs.Prelude.{◌≡◌};
ghost use Rattle.play_ticker.specs.Frames.{setup_for};
ghost use Rattle.scene_pipe.specs.Calls.{AreNewEnds};
ghost use Rattle.server_run.specs.inner.Threads.{HasTicked, IsNewTicker, ticker_states};

use band_render::Renderer;
use clip_format::MediaTable;
use play_outside::{Clock, Sink};
use play_ticker::{PipeEnds, TickEnd, Ticker};
use scene_pipe::ScenePipe;
use stage_lock::{Pass, SharedStage};
use std::sync::Wait;
use std::thread::Threads;

/// What the thread of the ticker owns: its pass, the frames that were shown last, both ends of the pipe that scenes go through, the
/// clock, and the output of each channel.
#[derive(Drop)]
pub(crate) struct TickerThread<C, O> {
    pub(crate) pass: Pass,
    pub(crate) renderer: Renderer,
    pub(crate) ends: PipeEnds,
    pub(crate) clock: C,
    pub(crate) outs: Vec<O>,
}

impl<C: Clock, O: Sink> TickerThread<C, O> {
    /// Creates the state of the ticker thread before its first tick, with both ends of `pipe`.
    pub(crate) fn new(
        pass: Pass,
        renderer: Renderer,
        pipe: ScenePipe,
        clock: C,
        outs: Vec<O>,
    ) -> TickerThread<C, O>
        ensures pass { result.pass ≡ pass }
        ensures renderer { result.renderer ≡ renderer }
        ensures ends { AreNewEnds pipe result.ends.stage_end result.ends.write_end }
        ensures clock { result.clock ≡ clock }
        ensures outs { result.outs ≡ outs }
    {
        let (stage_end, write_end) = pipe.split();
        TickerThread {
            pass,
            renderer,
            ends: PipeEnds {
                stage_end,
                write_end,
            },
            clock,
            outs,
        }
    }

    /// Returns the pass, the clock and the outputs.
    pub(crate) fn into_parts(self) -> (Pass, C, Vec<O>)
        ensures { result ≡ (self.pass, self.clock, self.outs) }
    {
        let TickerThread {
            pass,
            clock,
            outs,
            ..
        } = self;
        (pass, clock, outs)
    }
}

impl<C: Clock, O: Sink + Send> TickerThread<C, O> {
    /// Makes a tick for each pulse of the clock until the ticks end, and returns why they ended. Another thread renders and writes.
    pub(crate) fn run<R: Threads + Wait + Sync>(
        &mut self,
        rt: &R,
        stage: &SharedStage,
        media: &MediaTable,
    ) -> TickEnd
        requires { IsNewTicker stage.now media.now self.old }
        ensures { HasTicked (ticker_states C.state O.state) (setup_for self.old.renderer media.now) stage.now result (self.old, self.new) }
    {
        let ticker = Ticker { stage, media };
        ticker.run(
            rt,
            &mut self.pass,
            &mut self.renderer,
            &mut self.ends,
            &mut self.clock,
            &mut self.outs,
        )
    }
}

//! Ticks that are made by one thread, and rendered and written by another.
ghost use Rattle.std.specs.Prelude.{◌≡◌, length, vec_len};
ghost use Rattle.std.specs.Thread.{IsSync};
ghost use mathlib.Core.List.{IsPrefix};
ghost use Rattle.scene_pipe.specs.Calls.{AreNewEnds};
ghost use Rattle.play_ticker.specs.Ends.{HasEnded};
ghost use Rattle.play_ticker.specs.Frames.{setup_for, tick_positions};
ghost use Rattle.play_ticker.specs.Outputs.{AreWritten};
ghost use Rattle.play_ticker.specs.Starts.{MayTickAll};
ghost use Rattle.play_ticker.specs.inner.Staging.{HasStaged, MayStage};
ghost use Rattle.play_ticker.specs.inner.Writing.{HasWritten, MayWrite};

use crate::ending::TickEnd;
use band_render::Renderer;
use clip_format::MediaTable;
use play_outside::{Clock, Sink};
use scene_pipe::{ScenePipe, StageEnd, WriteEnd, laws, settle};
use stage_lock::{Pass, SharedStage};
use std::sync::Wait;
use std::thread::{Threads, join_mut};

/// What ticks are made from: the shared stage, and the clips.
#[derive(Clone, Copy)]
pub struct Ticker<'a> {
    /// The stage whose ticks are made.
    pub stage: &'a SharedStage,
    /// The clips that the stage shows.
    pub media: &'a MediaTable,
}

/// The two ends of a pipe, for one thread each.
#[derive(Drop)]
pub struct PipeEnds {
    /// The end of the thread that makes ticks.
    pub stage_end: StageEnd,
    /// The end of the thread that renders and writes.
    pub write_end: WriteEnd,
}

/// Makes a tick of the stage for each pulse of the clock, and writes the frame and the sound of each channel at that tick to the
/// output of the channel, channel 1 first, until the clock is closed or fails, a tick is refused, or an output fails.
///
/// The pass has number 0, and has made nothing. The pipe, the renderer and `outs` have as many channels, frames and outputs as the stage
/// has channels. The frames are those of the last tick among the events that the stage was given, blank if there is none; they are not
/// written again. The given events have at most the maximum number of ticks of a history. Ticks are made by one thread, and rendered and
/// written by another, and at most three ticks are made after one whose frame an output did not take. Other threads may use the stage
/// meanwhile.
///
/// At each end but [`TickEnd::Ended`] it stops the stage with tag 0.0, unless another stop came first.
pub fn tick_all<R: Threads + Wait + Sync, C: Clock, O: Sink + Send>(
    rt: &R,
    stage: &SharedStage,
    pass: &mut Pass,
    renderer: &mut Renderer,
    pipe: ScenePipe,
    media: &MediaTable,
    clock: &mut C,
    outs: &mut Vec<O>,
) -> TickEnd
    requires ready { MayTickAll stage.now media.now pass.old renderer.old (vec_len outs.old) }
    requires pipe { pipe ≡ stage.now.sizes.channels }
    ensures of { pass.new.stage ≡ stage.now }
    ensures first { pass.new.number ≡ 0 }
    ensures seen { IsPrefix pass.old.seen pass.new.seen }
    ensures made { pass.new.made ≡ tick_positions pass.new.seen }
    ensures outs { AreWritten O.state result (record { setup = setup_for renderer.old media.now; given = stage.now.sizes.given; history = pass.new.seen }) outs.old.items outs.new.items }
    ensures ended { HasEnded stage.now.sizes.given result (record { pass = pass.old; clock = C.state clock.old }) (record { pass = pass.new; clock = C.state clock.new }) }
{
    let ticker = Ticker { stage, media };
    let (stage_end, write_end) = pipe.split();
    let mut ends = PipeEnds {
        stage_end,
        write_end,
    };
    ticker.run(rt, pass, renderer, &mut ends, clock, outs)
}

impl Ticker<'_> {
    /// Makes a tick of the stage for each pulse of the clock, writes the frames to the outputs, and stops the stage.
    ///
    /// It does what [`tick_all`] does, with the stage and the clips of the ticker, and with both ends of a new pipe.
    pub fn run<R: Threads + Wait + Sync, C: Clock, O: Sink + Send>(
        &self,
        rt: &R,
        pass: &mut Pass,
        renderer: &mut Renderer,
        ends: &mut PipeEnds,
        clock: &mut C,
        outs: &mut Vec<O>,
    ) -> TickEnd
        requires ready { MayTickAll self.now.stage.now self.now.media.now pass.old renderer.old (vec_len outs.old) }
        requires pipe { AreNewEnds self.now.stage.now.sizes.channels ends.old.stage_end ends.old.write_end }
        ensures of { pass.new.stage ≡ self.now.stage.now }
        ensures first { pass.new.number ≡ 0 }
        ensures seen { IsPrefix pass.old.seen pass.new.seen }
        ensures made { pass.new.made ≡ tick_positions pass.new.seen }
        ensures outs { AreWritten O.state result (record { setup = setup_for renderer.old self.now.media.now; given = self.now.stage.now.sizes.given; history = pass.new.seen }) outs.old.items outs.new.items }
        ensures ended { HasEnded self.now.stage.now.sizes.given result (record { pass = pass.old; clock = C.state clock.old }) (record { pass = pass.new; clock = C.state clock.new }) }
    {
        laws::free_scenes_before_the_news();
        let (failed, met) = self.run_sides(rt, pass, renderer, ends, clock, outs.as_mut_slice());
        settle(&mut ends.stage_end, &mut ends.write_end);
        match failed {
            Some(channel) => TickEnd::OutFault { channel },
            None => met,
        }
    }

    /// Runs the side that renders and writes beside the side that makes ticks. It returns the channel whose output failed, if one did, and
    /// why the side that makes ticks ended.
    fn run_sides<R: Threads + Wait + Sync, C: Clock, O: Sink + Send>(
        &self,
        rt: &R,
        pass: &mut Pass,
        renderer: &mut Renderer,
        ends: &mut PipeEnds,
        clock: &mut C,
        outs: &mut [O],
    ) -> (Option<u8>, TickEnd)
        requires ready { MayTickAll self.now.stage.now self.now.media.now pass.old renderer.old (length outs.old) }
        requires pipe { AreNewEnds self.now.stage.now.sizes.channels ends.old.stage_end ends.old.write_end }
        ensures of { pass.new.stage ≡ self.now.stage.now }
        ensures written { HasWritten O.state (record { setup = setup_for renderer.old self.now.media.now; given = self.now.stage.now.sizes.given }) result.0
            (record { pipe = ends.old.write_end; frames = renderer.old; outs = outs.old }) (record { pipe = ends.new.write_end; frames = renderer.new; outs = outs.new }) }
        ensures staged { HasStaged self.now.stage.now.sizes.given result.1 (record { pass = pass.old; clock = C.state clock.old; pipe = ends.old.stage_end }) (record { pass = pass.new; clock = C.state clock.new; pipe = ends.new.stage_end }) }
    {
        let ticker = *self;
        let PipeEnds {
            stage_end,
            write_end,
        } = ends;
        join_mut(
            rt,
            &mut || -> Option<u8>
                requires { IsSync R.row × MayWrite ticker.stage.now ticker.media.now write_end.now renderer.now (length outs.now) }
                ensures { HasWritten O.state (record { setup = setup_for renderer.entry.now ticker.entry.media.now; given = ticker.entry.stage.now.sizes.given }) result
                    (record { pipe = write_end.entry.now; frames = renderer.entry.now; outs = outs.entry.now }) (record { pipe = write_end.exit.now; frames = renderer.exit.now; outs = outs.exit.now }) }
            { ticker.write_all(rt, renderer, write_end, outs) },
            &mut || -> TickEnd
                requires { IsSync R.row × MayStage ticker.stage.now pass.now stage_end.now }
                ensures { (pass.exit.now.stage ≡ ticker.entry.stage.now) × HasStaged ticker.entry.stage.now.sizes.given result (record { pass = pass.entry.now; clock = C.state clock.entry.now; pipe = stage_end.entry.now }) (record { pass = pass.exit.now; clock = C.state clock.exit.now; pipe = stage_end.exit.now }) }
            { ticker.stage_all(rt, pass, stage_end, clock) },
        )
    }
}

//! The side that makes ticks.
ghost use Rattle.std.specs.Prelude.{◌≡◌};
ghost use Rattle.play_ticker.specs.inner.Loop.{StopsAt};
ghost use Rattle.play_ticker.specs.inner.Staging.{EndsStaging, HasStaged, MakesStep, MayStage};

use crate::ending::TickEnd;
use crate::ticks::Ticker;
use play_outside::{Beat, Clock};
use scene_pipe::{Room, StageEnd};
use stage_lock::Pass;
use std::sync::Wait;

impl Ticker<'_> {
    /// Makes a tick for each pulse and sends its scenes, until the ticks end. Then it sends the end mark and stops the stage, unless a
    /// tick found it stopped. It returns why the ticks ended; that is `OutFault` if it got a report that an output failed.
    pub(crate) fn stage_all<R: Wait, C: Clock>(
        &self,
        rt: &R,
        pass: &mut Pass,
        pipe: &mut StageEnd,
        clock: &mut C,
    ) -> TickEnd
        requires { MayStage self.now.stage.now pass.old pipe.old }
        ensures of { pass.new.stage ≡ self.now.stage.now }
        ensures staged { HasStaged self.now.stage.now.sizes.given result (record { pass = pass.old; clock = C.state clock.old; pipe = pipe.old }) (record { pass = pass.new; clock = C.state clock.new; pipe = pipe.new }) }
    {
        let end = self.stage_ticks(rt, pass, pipe, clock);
        pipe.finish(rt);
        self.stop(rt, pass, end);
        end
    }

    /// Makes a tick for each pulse and sends its scenes, until the ticks end, and returns why they ended.
    fn stage_ticks<R: Wait, C: Clock>(
        &self,
        rt: &R,
        pass: &mut Pass,
        pipe: &mut StageEnd,
        clock: &mut C,
    ) -> TickEnd
        requires { MayStage self.now.stage.now pass.old pipe.old }
        ensures of { pass.new.stage ≡ self.now.stage.now }
        ensures staged { EndsStaging self.now.stage.now.sizes.given result (record { pass = pass.old; clock = C.state clock.old; pipe = pipe.old }) (record { pass = pass.new; clock = C.state clock.new; pipe = pipe.new }) }
    {
        for _ in rt.forever() {
            match self.stage_tick(rt, pass, pipe, clock) {
                Ok(()) => {}
                Err(end) => return end,
            }
        }
        unreachable!()
    }

    /// Gets scenes to fill, then takes a pulse, and then makes a tick, sends its scenes, and reports to the clock how many commands the
    /// history holds. The stage is free for other threads once the tick is made.
    fn stage_tick<R: Wait, C: Clock>(
        &self,
        rt: &R,
        pass: &mut Pass,
        pipe: &mut StageEnd,
        clock: &mut C,
    ) -> Result<(), TickEnd>
        requires of { pass.old.stage ≡ self.now.stage.now }
        requires first { pass.old.number ≡ 0 }
        requires channels { pipe.old.channels ≡ self.now.stage.now.sizes.channels }
        ensures of { pass.new.stage ≡ self.now.stage.now }
        ensures step { MakesStep self.now.stage.now.sizes.given result (record { pass = pass.old; clock = C.state clock.old; pipe = pipe.old }) (record { pass = pass.new; clock = C.state clock.new; pipe = pipe.new }) }
    {
        let mut scenes = match pipe.room(rt) {
            Room::Free(scenes) => scenes,
            Room::Broken { channel } => return Err(TickEnd::OutFault { channel }),
        };
        match clock.next() {
            Beat::Pulse => {}
            Beat::Closed => return Err(TickEnd::ClockClosed),
            Beat::Failed => return Err(TickEnd::ClockFault),
        }
        let ticked = self.stage.tick_counted(rt, pass, &mut scenes)?;
        pipe.send(rt, ticked.number, scenes);
        clock.holds(ticked.held);
        Ok(())
    }

    /// Stops the stage, unless a tick found it stopped.
    fn stop<R: Wait>(&self, rt: &R, pass: &mut Pass, end: TickEnd)
        requires of { pass.old.stage ≡ self.now.stage.now }
        ensures of { pass.new.stage ≡ self.now.stage.now }
        ensures stops { StopsAt self.now.stage.now.sizes.given end pass.old pass.new }
    {
        match end {
            TickEnd::Ended { .. } => {}
            TickEnd::ClockClosed
            | TickEnd::TicksOver
            | TickEnd::ClockFault
            | TickEnd::OutFault { .. } => {
                let _ = self.stage.stop(rt, pass, 0);
            }
        }
    }
}

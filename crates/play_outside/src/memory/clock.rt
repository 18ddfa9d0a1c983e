//! A clock in memory.
ghost use Rattle.std.specs.Prelude.{◌≡◌, Some, false};

use super::planned_faults::PlannedFaults;
use crate::{Beat, Clock, PlainClock};

/// A clock that gives a number of pulses, and is then closed. It exposes what it gave.
#[derive(Drop)]
pub struct MemClock {
    pulses: PlainClock,
    pub(crate) planned: PlannedFaults,
}

impl MemClock {
    ghost use Rattle.play_outside.specs.memory.Clock.{pulses_left};
    ghost use Rattle.play_outside.specs.ClockState.{after_clock_fault};

    /// Creates a clock that gives `pulses` pulses. The calls whose numbers, counted from 1, are in `fails` return
    /// `Failed`.
    pub fn new(pulses: u64, fails: Vec<u64>) -> MemClock
        ensures fresh { ⟦<MemClock as Clock>⟧.state result ≡ record { told = Some (record { pulses = 0; closed = false }); faults = 0 } }
        ensures pulses { pulses_left result ≡ pulses }
    {
        MemClock {
            pulses: PlainClock::new(pulses),
            planned: PlannedFaults::new(fails),
        }
    }

    /// Returns how many pulses are left.
    pub fn left(&self) -> u64
        ensures { result ≡ pulses_left self.now }
    {
        self.pulses.left()
    }

    /// Returns how often a call has failed.
    pub fn faults(&self) -> u64
        ensures { result ≡ (⟦<MemClock as Clock>⟧.state self.now).faults }
    {
        self.planned.count
    }

    /// Counts a call, and fails it.
    pub(crate) fn fail_call(&mut self) -> Beat
        ensures beat { result ≡ Beat.Failed }
        ensures state { ⟦<MemClock as Clock>⟧.state self.new ≡ after_clock_fault (⟦<MemClock as Clock>⟧.state self.old) }
        ensures left { pulses_left self.new ≡ pulses_left self.old }
    {
        let _planned = self.planned.fails_now();
        self.planned.raise();
        Beat::Failed
    }
}

impl Clock for MemClock {
    ghost use Rattle.play_outside.specs.memory.Clock.{pulses_left};
    ghost use Rattle.play_outside.specs.Clock.{Beats, LeavesPulses};

    ghost state = { λ c. record (⟦<PlainClock as Clock>⟧.state c.pulses) { faults = c.planned.count } };

    fn next(&mut self) -> Beat
        ensures beats { Beats result (⟦<MemClock as Clock>⟧.state self.old) (⟦<MemClock as Clock>⟧.state self.new) }
        ensures left { LeavesPulses result (pulses_left self.old) (pulses_left self.new) }
    {
        if self.planned.fails_now() {
            self.planned.raise();
            return Beat::Failed;
        }
        self.pulses.next()
    }
}

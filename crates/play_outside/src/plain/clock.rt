//! A clock that never fails.
ghost use Rattle.std.specs.Prelude.{◌≡◌, ◌≤◌, Some, false};
ghost use Rattle.play_outside.specs.Clock.{Beats, LeavesPulses};

use crate::{Beat, Clock};

/// A clock that gives a number of pulses, and is then closed. It never fails, and exposes what it gave.
#[derive(Drop)]
pub struct PlainClock {
    pulses: u64,
    given: u64,
    closed: bool,
    ghost within: { given ≤ pulses },
}

impl PlainClock {
    ghost use Rattle.play_outside.specs.plain.Clock.{pulses_left};

    /// Creates a clock that gives `pulses` pulses.
    pub fn new(pulses: u64) -> PlainClock
        ensures fresh { ⟦<PlainClock as Clock>⟧.state result ≡ record { told = Some (record { pulses = 0; closed = false }); faults = 0 } }
        ensures pulses { pulses_left result ≡ pulses }
    {
        PlainClock {
            pulses,
            given: 0,
            closed: false,
        }
    }

    /// Returns how many pulses are left.
    pub fn left(&self) -> u64
        ensures { result ≡ pulses_left self.now }
    {
        self.pulses - self.given
    }
}

impl Clock for PlainClock {
    ghost use Rattle.play_outside.specs.plain.Clock.{pulses_left};

    ghost state = { λ c. record { told = Some (record { pulses = c.given; closed = c.closed }); faults = 0 } };

    fn next(&mut self) -> Beat
        ensures beats { Beats result (⟦<PlainClock as Clock>⟧.state self.old) (⟦<PlainClock as Clock>⟧.state self.new) }
        ensures left { LeavesPulses result (pulses_left self.old) (pulses_left self.new) }
    {
        if self.given < self.pulses {
            self.given += 1;
            Beat::Pulse
        } else {
            self.closed = true;
            Beat::Closed
        }
    }
}

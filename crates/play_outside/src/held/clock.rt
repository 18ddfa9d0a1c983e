//! A clock of which one call waits for a flag.
ghost use Rattle.std.specs.Prelude.{◌≡◌};

use super::FlaggedCall;
use super::hold::Hold;
use crate::{Beat, Clock, MemClock};

/// A clock in memory, of which one call waits for a flag.
#[derive(Drop)]
pub struct HeldClock {
    clock: MemClock,
    hold: Hold,
}

impl HeldClock {
    /// Creates a clock that holds the call of `waits` until its flag is set, or fails it after 2,000,000,000 turns, and sets
    /// the flag of `sets` at its call.
    pub fn new(clock: MemClock, waits: Option<FlaggedCall>, sets: Option<FlaggedCall>) -> HeldClock
        ensures { ⟦<HeldClock as Clock>⟧.state result ≡ ⟦<MemClock as Clock>⟧.state clock }
    {
        HeldClock {
            clock,
            hold: Hold::new(waits, sets),
        }
    }

    /// Returns the clock as it is now.
    pub fn clock(&self) -> &MemClock
        ensures { ⟦<MemClock as Clock>⟧.state result.now ≡ ⟦<HeldClock as Clock>⟧.state self.now }
    {
        &self.clock
    }
}

impl Clock for HeldClock {
    ghost state = { λ h. ⟦<MemClock as Clock>⟧.state h.clock };

    fn next(&mut self) -> Beat {
        if self.hold.goes_on() {
            self.clock.next()
        } else {
            self.clock.fail_call()
        }
    }
}

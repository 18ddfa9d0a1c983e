//! A door of which one call waits for a flag.
ghost use Rattle.std.specs.Prelude.{◌≡◌, ◌+◌, ◌-◌, ◌^◌, ◌<◌, min};

use super::FlaggedCall;
use super::hold::Hold;
use crate::{Arrival, Listener};

/// A door of which one call of `next` waits for a flag.
#[derive(Drop)]
pub struct HeldDoor<D: Listener> {
    door: D,
    hold: Hold,
    /// How often the flag was not set in time.
    missed: u64,
}

impl<D: Listener> HeldDoor<D> {
    /// Creates a door that holds the call of `waits` until its flag is set, or fails it after 2,000,000,000 turns, and sets
    /// the flag of `sets` at its call. A call that fails in this way does not reach `door`.
    pub fn new(door: D, waits: Option<FlaggedCall>, sets: Option<FlaggedCall>) -> HeldDoor<D>
        ensures door { result.door ≡ door }
        ensures state { (D.state door).faults < 2 ^ 64 → ⟦<HeldDoor<D> as Listener>⟧.state result ≡ D.state door }
    {
        HeldDoor {
            door,
            hold: Hold::new(waits, sets),
            missed: 0,
        }
    }

    /// Returns the door as it is now.
    pub fn door(&self) -> &D
        ensures { result.now ≡ self.now.door }
    {
        &self.door
    }
}

impl<D: Listener> Listener for HeldDoor<D> {
    type Line = D::Line;

    ghost state = { λ h. record (D.state h.door) { faults = min ((D.state h.door).faults + h.missed) (2 ^ 64 - 1) } };

    fn next(&mut self) -> Arrival<D::Line> {
        if !self.hold.goes_on() {
            self.missed = self.missed.saturating_add(1);
            return Arrival::Failed;
        }
        self.door.next()
    }

    fn give_back(&mut self, line: D::Line) {
        self.door.give_back(line)
    }
}

//! Calls that wait for a flag, and calls that set one.
ghost use Rattle.std.specs.Prelude.{◌≡◌, false, true};
ghost use Rattle.play_outside.specs.Faults.{one_more};
ghost use Rattle.play_outside.specs.inner.Hold.{is_call};

use std::alloc::Global;
use std::sync::Arc;
use std::sync::atomic::{AtomicBool, Ordering};
use std::thread;

/// How often a held call looks at its flag, before it fails.
const TURNS: u32 = 2_000_000_000;

/// A flag that threads share.
pub type Flag = Arc<AtomicBool, Global>;

/// A call by its number, counted from 1, and a flag.
#[derive(Drop)]
pub struct FlaggedCall {
    pub call: u64,
    pub flag: Flag,
}

/// Which call waits for a flag, which one sets a flag, and how many calls there were.
#[derive(Drop)]
pub(crate) struct Hold {
    waits: Option<FlaggedCall>,
    sets: Option<FlaggedCall>,
    calls: u64,
}

impl Hold {
    /// Creates the plan of these calls, before the first call.
    pub(crate) fn new(waits: Option<FlaggedCall>, sets: Option<FlaggedCall>) -> Hold
        ensures { result ≡ record { waits = waits; sets = sets; calls = 0 } }
    {
        Hold {
            waits,
            sets,
            calls: 0,
        }
    }

    /// Counts a call, sets the flag if it is the call to set it, and then waits if it is the call to wait. Returns
    /// whether the call may go on, which it may not if its flag was never seen to be set.
    pub(crate) fn goes_on(&mut self) -> bool
        ensures calls { self.new.calls ≡ one_more self.old.calls }
        ensures plan { (self.new.waits ≡ self.old.waits) × (self.new.sets ≡ self.old.sets) }
        ensures others { is_call self.new.calls self.old.waits ≡ false → result ≡ true }
    {
        self.calls = self.calls.saturating_add(1);
        match &self.sets {
            Some(at) if at.call == self.calls => at.flag.store(true, Ordering::SeqCst),
            _ => {}
        }
        match &self.waits {
            Some(at) if at.call == self.calls => is_set_in_time(&at.flag),
            _ => true,
        }
    }
}

/// Waits until the flag is set, for a number of turns. Returns whether it was.
fn is_set_in_time(flag: &AtomicBool) -> bool {
    for _ in 0..TURNS {
        if flag.load(Ordering::SeqCst) {
            return true;
        }
        thread::yield_now();
    }
    false
}

//! Looks at the signals that ask the process to end.

use real_devices::{EndSignal, Signals};
use std::fs::File;
use std::rt::Files;
use std::time::{Clock, Duration};

/// How many milliseconds there are from one look at the signals to the next.
const LOOK_MILLIS: u64 = 100;

/// The signals, and when they were looked at.
#[derive(Drop)]
pub struct Looks {
    signals: Signals,
    /// The time of the clock from which on they are looked at again.
    due: Duration,
}

impl Looks {
    /// Returns the signals of this process, before the first look.
    pub fn new<R: Files<File = File>>(rt: &R) -> Looks {
        Looks {
            signals: Signals::new(rt),
            due: Duration::ZERO,
        }
    }

    /// Returns a pending signal that asks the process to end, unless they were looked at a moment ago. It looks too if the
    /// clock cannot be read.
    pub fn pending<R: Clock>(&mut self, rt: &R) -> Option<EndSignal> {
        if let Ok(now) = rt.monotonic() {
            if now < self.due {
                return None;
            }
            self.due = now.saturating_add(Duration::from_millis(LOOK_MILLIS));
        }
        self.signals.pending()
    }
}

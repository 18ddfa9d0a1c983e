//! How long an output waits for its reader.
ghost use Rattle.std.specs.Prelude.{◌≡◌, false};
ghost use Rattle.real_devices.specs.inner.Stall.{Waits};

use std::time::Duration;

/// After how many nanoseconds in which no byte was taken the wait of an output is reported.
const SAID_NANOS: u64 = 1_000_000_000;

/// For how many nanoseconds an output may keep the end of a run waiting.
const END_NANOS: u64 = 10_000_000_000;

/// How many tries of a write come one after the other without a pause.
const BUSY_TRIES: u64 = 50;

/// By how many microseconds each further pause is longer than the one before it.
const PAUSE_MICROS: u64 = 50;

/// The longest pause, in microseconds.
const MOST_PAUSE_MICROS: u64 = 5_000;

/// What an output does whose reader keeps it waiting.
#[derive(Clone, Copy, Debug, PartialEq, Eq)]
pub(crate) enum StallStep {
    /// It waits on.
    GoOn,
    /// It reports the wait, and waits on.
    Say,
    /// It waits no longer.
    GiveUp,
}

/// How long an output has waited for its reader.
#[derive(Clone, Copy, Debug, PartialEq, Eq)]
pub(crate) struct Stall {
    /// For how many nanoseconds the reader has taken nothing.
    idle: u64,
    /// Whether that was reported.
    is_said: bool,
    /// For how many nanoseconds the output has kept the end of the run waiting.
    at_end: u64,
}

impl Stall {
    /// Returns the stall of an output that has not waited.
    pub(crate) const fn new() -> Stall
        ensures { result ≡ record { idle = 0; is_said = false; at_end = 0 } }
    {
        Stall {
            idle: 0,
            is_said: false,
            at_end: 0,
        }
    }

    /// Notes that the reader took something.
    pub(crate) fn take(&mut self)
        ensures { self.new ≡ record self.old { idle = 0; is_said = false } }
    {
        self.idle = 0;
        self.is_said = false;
    }

    /// Counts a wait of `nanos` nanoseconds, during which the reader took nothing, and returns what to do. `is_ending`
    /// is whether the run waits for nothing but its outputs.
    pub(crate) fn wait(&mut self, nanos: u64, is_ending: bool) -> StallStep
        ensures { Waits result nanos is_ending self.old self.new }
    {
        self.idle = self.idle.saturating_add(nanos);
        self.at_end = if is_ending {
            self.at_end.saturating_add(nanos)
        } else {
            0
        };
        if self.at_end >= END_NANOS {
            return StallStep::GiveUp;
        }
        if self.is_said || self.idle < SAID_NANOS {
            return StallStep::GoOn;
        }
        self.is_said = true;
        StallStep::Say
    }
}

/// Returns how long to pause after `tries` tries of a write, if at all: the longer the more tries there were.
pub(crate) fn pause_after(tries: u64) -> Option<Duration> {
    let pauses = tries.checked_sub(BUSY_TRIES)?;
    let micros = pauses.saturating_mul(PAUSE_MICROS).min(MOST_PAUSE_MICROS);
    Some(Duration::from_micros(micros))
}

//! When the pulses of a clock are due.
ghost use Rattle.std.specs.Prelude.{◌≡◌, ◌+◌, ◌*◌, ◌<◌, ◌≤◌, IfSome};
ghost use Rattle.std.specs.Time.{instant_nanos};
ghost use Rattle.std.specs.Duration.{as_nanos};
ghost use Rattle.real_devices.specs.inner.Schedule.{Advances, AreIn, IsDue};

use std::time::{Duration, Instant};

/// A pulse that is late by more than this many seconds ends the schedule, and a new one begins.
const STALL_SECONDS: u64 = 1;

/// The nanoseconds of a second.
const SECOND: u128 = 1_000_000_000;

/// What a clock does for its next pulse.
#[derive(Clone, Copy, Debug, PartialEq, Eq)]
pub(crate) enum ClockStep {
    /// It waits for this time, which is 0 if the pulse is late.
    Wait(Duration),
    /// It gives the pulse at once, and passes over this many more that were due by then.
    PassOver(u128),
}

/// Pulses that are due at even distances, from a beginning on.
#[derive(Clone, Copy)]
pub(crate) struct Schedule {
    begun: Instant,
    given: u64,
}

impl Schedule {
    /// Begins a schedule now, with no pulse given.
    pub(crate) fn begin(now: Instant) -> Schedule
        ensures { result ≡ record { begun = now; given = 0 } }
    {
        Schedule {
            begun: now,
            given: 0,
        }
    }

    /// Takes the next pulse, at `rate` pulses a second. If it is more than a second late, a new schedule begins now. If
    /// the pulse is due at a time that no clock reads, this returns `None` and changes nothing.
    pub(crate) fn next(&mut self, now: Instant, rate: u32) -> Option<ClockStep>
        requires { 0 < rate }
        ensures { Advances result rate now self.old self.new }
    {
        let due = self.due(rate)?;
        let late = now.duration_since(due);
        if late > Duration::from_secs(STALL_SECONDS) {
            *self = Schedule::begin(now);
            return Some(ClockStep::PassOver(pulses_in(late, rate)));
        }
        self.given = self.given.saturating_add(1);
        Some(ClockStep::Wait(due.duration_since(now)))
    }

    /// Returns how long it is until the next pulse is due, or `None` if it is due at a time that no clock reads.
    pub(crate) fn left(&self, now: Instant, rate: u32) -> Option<Duration>
        requires { 0 < rate }
    {
        Some(self.due(rate)?.duration_since(now))
    }

    /// Returns when the next pulse is due, or `None` if no clock reads that time.
    fn due(&self, rate: u32) -> Option<Instant>
        requires { 0 < rate }
        ensures { IfSome result (λ due. IsDue rate self.now (instant_nanos due)) }
    {
        let nanos = nanos_before_next(self.given, rate);
        let after = u64::try_from(nanos).ok()?;
        self.begun.checked_add(Duration::from_nanos(after))
    }
}

/// Returns how many nanoseconds after the beginning the pulse after the first `given` ones is due.
#[tactic(auto, using(crate::proofs::Pulses::quotient_fits, crate::proofs::Pulses::one_more_is_beyond))]
fn nanos_before_next(given: u64, rate: u32) -> u128
    requires { 0 < rate }
    ensures reached { result * rate ≤ (given + 1) * 1_000_000_000 }
    ensures not_passed { (given + 1) * 1_000_000_000 < (result + 1) * rate }
{
    (u128::from(given) + 1) * SECOND / u128::from(rate)
}

/// Returns how many whole pulses fit in a time.
fn pulses_in(time: Duration, rate: u32) -> u128
    ensures { AreIn rate (as_nanos time) result }
{
    time.as_nanos() * u128::from(rate) / SECOND
}

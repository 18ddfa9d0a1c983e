//! When the thread of a live output looks for the next frame.
ghost use Rattle.std.specs.Prelude.{◌<◌, ◌≤◌, ◌+◌, max};

/// The least and the most milliseconds that the thread sleeps while no frame waits.
const LEAST_MILLIS: u64 = 2;

const MOST_MILLIS: u64 = 20;

/// How many milliseconds before the next frame is due the thread begins to look for it.
const EARLY_MILLIS: u64 = 2;

/// If a frame is late, the thread sleeps for the time by which it is late, divided by this number.
const LATE_PARTS: u64 = 8;

/// If two frames are further apart than this many milliseconds, the time between frames is not known.
const MOST_GAP_MILLIS: u64 = 1_000;

/// When frames came to an output, as its thread saw them. Further frames are expected at the same distance.
#[derive(Clone, Copy, Debug, PartialEq, Eq)]
pub(crate) struct Rhythm {
    /// The millisecond of the clock at which the last frame came.
    last: u64,
    /// How many milliseconds the last frame came after the one before it, or 0 if that is not known.
    gap: u64,
}

impl Rhythm {
    /// Returns the rhythm of an output to which no frame came.
    pub(crate) const fn new() -> Rhythm {
        Rhythm { last: 0, gap: 0 }
    }

    /// Notes that a frame came at the millisecond `now` of the clock.
    pub(crate) fn note(&mut self, now: u64) {
        let gap = now.saturating_sub(self.last);
        self.gap = if gap > MOST_GAP_MILLIS { 0 } else { gap };
        self.last = now;
    }

    /// Returns for how many milliseconds the thread may sleep from the millisecond `now` of the clock: until shortly
    /// before the next frame is due, and the longer the later it is.
    pub(crate) fn pause(&self, now: u64) -> u64
        ensures least { LEAST_MILLIS ≤ result }
        ensures most { result ≤ MOST_MILLIS }
        ensures in_time { now < self.now.last + self.now.gap + 24 → now + result ≤ max (self.now.last + self.now.gap) (now + LEAST_MILLIS) }
    {
        let since = now.saturating_sub(self.last);
        let until = self.gap.saturating_sub(since.saturating_add(EARLY_MILLIS));
        let late = since.saturating_sub(self.gap);
        until
            .max(late / LATE_PARTS)
            .max(LEAST_MILLIS)
            .min(MOST_MILLIS)
    }
}

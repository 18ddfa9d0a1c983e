//! How often lines of one kind are written to standard error.
use std::fmt::{self, Display, Formatter, Write};
use std::sync::atomic::{AtomicU64, Ordering};
use std::time::Clock;

/// For how many milliseconds after a line no other line of its kind is written.
const PAUSE_MILLIS: u64 = 1_000;

/// When the next line of a kind may be written, and how many were left out since the last one. Threads share it.
#[derive(Drop)]
pub(crate) struct Pace {
    /// The millisecond of the clock from which on a line may be written.
    due: AtomicU64,
    left_out: AtomicU64,
}

/// How many lines of a kind were left out since the last one.
#[derive(Clone, Copy)]
pub(crate) struct LeftOut(u64);

impl LeftOut {
    /// Returns whether no line was left out.
    pub(crate) fn is_none(&self) -> bool {
        self.0 == 0
    }
}

impl Display for LeftOut {
    /// Writes the end of a line, which is empty if no line was left out.
    fn fmt<W: Write>(&self, f: &mut Formatter<W>) -> fmt::Result {
        match self.0 {
            0 => Ok(()),
            1 => f.write_str("; one more such line was left out"),
            count => write!(f, "; {count} more such lines were left out"),
        }
    }
}

impl Pace {
    /// Returns the pace of a kind of which no line was written.
    pub(crate) const fn new() -> Pace {
        Pace {
            due: AtomicU64::new(0),
            left_out: AtomicU64::new(0),
        }
    }

    /// Returns how many lines were left out if one may be written now, and resets the count. Else this line is left
    /// out, and `None` returned.
    pub(crate) fn next<T: Clock>(&self, time: &T) -> Option<LeftOut> {
        let now = millis(time);
        let due = self.due.load(Ordering::SeqCst);
        if now >= due && self.is_first(due, now.saturating_add(PAUSE_MILLIS)) {
            return Some(self.take());
        }
        self.left_out.fetch_add(1, Ordering::SeqCst);
        None
    }

    /// Returns how many lines were left out, and resets the count.
    pub(crate) fn take(&self) -> LeftOut {
        LeftOut(self.left_out.swap(0, Ordering::SeqCst))
    }

    /// Sets when the next line is due, unless another thread has set it. Returns whether it did.
    fn is_first(&self, due: u64, next: u64) -> bool {
        self.due
            .compare_exchange(due, next, Ordering::SeqCst, Ordering::SeqCst)
            .is_ok()
    }
}

/// Returns the milliseconds of the clock, or `u64::MAX` if it cannot be read, so that each line is due then.
pub(crate) fn millis<T: Clock>(time: &T) -> u64 {
    match time.monotonic() {
        Ok(since) => u64::try_from(since.as_millis()).unwrap_or(u64::MAX),
        Err(_) => u64::MAX,
    }
}

//! Times and rates of a run, as a person reads them.

use std::fmt;
use std::time::Duration;

/// A number of ticks in a second, in tenths. It is written as `97.4`.
#[derive(Clone, Copy)]
pub struct Rate {
    tenths: u64,
}

impl Rate {
    /// Returns the rate of `ticks` ticks in the time `took`.
    pub fn of(ticks: u64, took: Duration) -> Rate {
        Rate {
            tenths: ticks.saturating_mul(10_000) / millis(took).max(1),
        }
    }
}

impl fmt::Display for Rate {
    fn fmt<W: fmt::Write>(&self, f: &mut fmt::Formatter<W>) -> fmt::Result {
        let (whole, tenth) = (self.tenths / 10, self.tenths % 10);
        write!(f, "{whole}.{tenth}")
    }
}

/// A time in whole seconds. It is written in hours, minutes and seconds, as `1:05:09`.
#[derive(Clone, Copy)]
pub struct HourTime {
    seconds: u64,
}

impl HourTime {
    /// Returns the whole seconds of a time.
    pub fn of(time: Duration) -> HourTime {
        HourTime {
            seconds: time.as_secs(),
        }
    }
}

impl fmt::Display for HourTime {
    fn fmt<W: fmt::Write>(&self, f: &mut fmt::Formatter<W>) -> fmt::Result {
        let (hours, minutes, seconds) = (
            self.seconds / 3_600,
            self.seconds / 60 % 60,
            self.seconds % 60,
        );
        write!(f, "{hours}:{minutes:02}:{seconds:02}")
    }
}

/// Returns how long the rest of `all` ticks takes if `ticks` of them took the time `took`. It is 0 if `ticks` is not
/// below `all`.
pub fn time_left(ticks: u64, all: u64, took: Duration) -> HourTime {
    let rest = all.saturating_sub(ticks);
    let millis = rest.saturating_mul(millis(took)) / ticks.max(1);
    HourTime {
        seconds: millis / 1_000,
    }
}

/// Returns the whole milliseconds of a time.
fn millis(time: Duration) -> u64 {
    u64::try_from(time.as_millis()).unwrap_or(u64::MAX)
}

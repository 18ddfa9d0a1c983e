//! A clock over a time that passes only in sleeps, and the lines that it writes to standard error.
use play_outside::{Beat, Clock};
use real_devices::RateClock;
use std::alloc::Global;
use std::fmt::{Display, Write};
use std::io::{self, Eprint};
use std::sync::Arc;
use std::sync::atomic::{AtomicU64, Ordering};
use std::test::Fail;
use std::time::{self, Duration};

/// The lines about a journal for 4,194,304 commands: when it first holds nine tenths, and when it is full.
static LINES: [&str; 2] = [
    "playd: journal: 3774874 of 4194304 commands are held, nine tenths or more; start the server again when nothing is on air",
    "playd: journal: full with 4194304 commands; each further command is answered 503 until the server is started again",
];

/// Nanoseconds that pass only in sleeps, and a standard error that counts its lines: 1 for the first of `LINES`, 10 for the second,
/// and 100 for any other.
#[derive(Drop)]
struct SleptTime {
    alloc: Global,
    nanos: Arc<AtomicU64, Global>,
    said: Arc<AtomicU64, Global>,
}

impl SleptTime {
    /// Returns time 0, with no line counted.
    fn new(alloc: Global) -> Result<SleptTime, Fail> {
        Ok(SleptTime {
            alloc,
            nanos: Arc::new(alloc, AtomicU64::new(0))?,
            said: Arc::new(alloc, AtomicU64::new(0))?,
        })
    }
}

impl time::Clock for SleptTime {
    fn monotonic(&self) -> io::Result<Duration> {
        Ok(Duration::from_nanos(self.nanos.load(Ordering::SeqCst)))
    }

    fn since_1970(&self) -> io::Result<Duration> {
        self.monotonic()
    }

    fn sleep(&self, duration: Duration) {
        let nanos = u64::try_from(duration.as_nanos()).unwrap_or(u64::MAX);
        self.nanos.fetch_add(nanos, Ordering::SeqCst);
    }
}

impl Eprint for SleptTime {
    fn eprint<D: Display + Drop>(&self, _value: D) -> io::Result<()> {
        Ok(())
    }

    fn eprintln<D: Display + Drop>(&self, value: D) -> io::Result<()> {
        let mut line = String::new(self.alloc);
        let _ = write!(line, "{value}");
        let mark = if line.as_str() == LINES[0] {
            1
        } else if line.as_str() == LINES[1] {
            10
        } else {
            100
        };
        self.said.fetch_add(mark, Ordering::SeqCst);
        Ok(())
    }
}

/// Rates, how many pulses are asked for, and how many nanoseconds these take.
const PULSES: [(u32, u32, u64); 4] = [
    (1, 3, 3_000_000_000),
    (25, 1_000, 40_000_000_000),
    (30, 100, 3_333_333_333),
    (240, 24, 100_000_000),
];

/// No clause says that a clock sleeps until its pulses are due, and no longer.
#[test]
fn is_neither_too_fast_nor_too_slow(rt: HostRuntime) -> Result<(), Fail> {
    let alloc = rt.alloc();
    for (rate, pulses, nanos) in PULSES {
        let time = SleptTime::new(alloc)?;
        let passed = Arc::try_clone(&time.nanos)?;
        let mut clock = RateClock::new(time, rate, 1);
        for _ in 0..pulses {
            assert_eq!(rt; clock.next(), Beat::Pulse);
        }
        assert_eq!(rt; passed.load(Ordering::SeqCst), nanos);
    }
    Ok(())
}

/// How many commands a journal for 4,194,304 holds, one after another, and the count of the lines by then.
static HELD: [(u32, u64); 7] = [
    (0, 0),
    (3_774_873, 0),
    (3_774_874, 1),
    (3_774_875, 1),
    (4_194_303, 1),
    (4_194_304, 11),
    (4_194_304, 11),
];

/// No clause says what comes on standard error.
#[test]
fn says_once_each_that_a_journal_is_nearly_full_and_full(rt: HostRuntime) -> Result<(), Fail> {
    let time = SleptTime::new(rt.alloc())?;
    let said = Arc::try_clone(&time.said)?;
    let mut clock = RateClock::new(time, 25, 4_194_304);
    for (commands, by_then) in HELD {
        clock.holds(commands);
        assert_eq!(rt; said.load(Ordering::SeqCst), by_then);
    }
    Ok(())
}

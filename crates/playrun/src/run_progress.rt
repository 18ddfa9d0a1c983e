//! The progress of a run with digests, for a person at a terminal.

use super::complaint::{say_run, say_run_end};
use super::tick_lines::TickLines;
use std::io::Eprint;
use std::time::{Clock, Duration, Instant};

/// The least seconds between two reports.
const SECONDS_BETWEEN_WORDS: u64 = 1;

/// Counts the ticks whose digests were written, and reports on standard error how far the run is: the ticks, how many
/// there are in a second, and how long the rest takes if the number of all ticks is known. It reports once a second, in
/// one line of a terminal, over the last report.
#[derive(Drop)]
pub struct RunProgress<R> {
    rt: R,
    /// The number of ticks of the whole run, if it is known.
    all: Option<u64>,
    lines: TickLines,
    /// When the first tick was counted.
    begun: Option<Instant>,
    /// When the last report was made.
    said: Option<Instant>,
}

impl<R: Eprint + Clock + Drop> RunProgress<R> {
    /// Returns the progress of a run that has not begun. `rt` has the clock and standard error.
    pub fn new(rt: R, all: Option<u64>) -> RunProgress<R> {
        RunProgress {
            rt,
            all,
            lines: TickLines::new(),
            begun: None,
            said: None,
        }
    }

    /// Takes bytes that were written, and reports how far the run is if a report is due.
    pub fn take(&mut self, written: &[u8]) {
        let before = self.lines.ticks();
        self.lines.take(written);
        if self.lines.ticks() == before {
            return;
        }
        if let Ok(now) = Instant::now(&self.rt) {
            self.say(now);
        }
    }

    /// Reports how far the run is, unless the last report was made, or the first tick counted, less than a second ago.
    fn say(&mut self, now: Instant) {
        let Some(begun) = self.begun else {
            self.begun = Some(now);
            return;
        };
        let last = self.said.unwrap_or(begun);
        if now.duration_since(last) >= Duration::from_secs(SECONDS_BETWEEN_WORDS) {
            say_run(
                &self.rt,
                self.lines.ticks(),
                self.all,
                now.duration_since(begun),
            );
            self.said = Some(now);
        }
    }

    /// Reports how many ticks the run had and how long it took, if there was a report before.
    pub fn end(&self) {
        let (Some(begun), Some(_)) = (self.begun, self.said) else {
            return;
        };
        if let Ok(now) = Instant::now(&self.rt) {
            say_run_end(&self.rt, self.lines.ticks(), now.duration_since(begun));
        }
    }
}

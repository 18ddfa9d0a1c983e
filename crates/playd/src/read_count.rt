//! Reports on how far a history was read. Failures to write them are ignored.

use crate::said::PROGRAM;
use history_reader::ReadTeller;
use host_system::{Grouped, Progress};
use std::io::Eprint;

/// How many parts of a history there are, after each of which the progress is reported again on a terminal.
const PARTS: usize = 100;

/// How far the reading of a history is, in one line of a terminal.
#[derive(Drop)]
pub struct ReadCount<R> {
    errors: R,
    progress: Progress,
    /// How many bytes were played at the last report.
    told: usize,
    /// Whether a line of a terminal was begun and not ended.
    has_begun_line: bool,
}

impl<R: Eprint + Drop> ReadCount<R> {
    /// Returns the count before anything is read. How much it reports depends on `progress`.
    pub fn new(errors: R, progress: Progress) -> ReadCount<R> {
        ReadCount {
            errors,
            progress,
            told: 0,
            has_begun_line: false,
        }
    }

    /// Ends the line of a terminal, if one was begun, so that another line can be written.
    pub fn end_line(self) {
        if self.has_begun_line {
            let _ = self.errors.eprintln("");
        }
    }

    /// Reports how many bytes were played, over the last such report.
    fn say_played(&mut self, bytes: usize, of: usize) {
        self.told = bytes;
        self.has_begun_line = true;
        let (played, all) = (Grouped(bytes as u64), Grouped(of as u64));
        let _ = self.errors.eprint(format_args!(
            "\r{PROGRAM}: {played} of {all} bytes of the history are played"
        ));
    }
}

impl<R: Eprint + Drop> ReadTeller for ReadCount<R> {
    /// Reports on a terminal how many bytes were played, after each hundredth part of a history. If it begins again, so do the
    /// reports.
    fn played(&mut self, bytes: usize, of: usize) {
        match self.progress {
            Progress::Silent | Progress::Total => {}
            Progress::Counted => {
                if bytes < self.told || bytes - self.told > of / PARTS || bytes == of {
                    self.say_played(bytes, of);
                }
            }
        }
    }
}

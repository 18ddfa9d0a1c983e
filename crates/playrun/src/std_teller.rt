//! Reports to a person on standard error.

use super::complaint::{
    say_cues, say_faulty_cue, say_film, say_no_end, say_recorded, say_refused_cue, say_refused_word,
};
use play_schedule::LineFault;
use run_script::{RefusedCue, Teller};
use std::cell::Cell;
use std::io::Eprint;

/// After how many ticks the progress of a film is reported again on a terminal.
const TICKS_BETWEEN_WORDS: u64 = 1000;

/// Reports on standard error what is wrong with a cue sheet, which of its cues are refused, and whether a film fits
/// beside the clips of the media folder. On a terminal it also reports for which words lines of a script are refused,
/// and how far the writing of a film is. Failures to write are ignored.
#[derive(Drop)]
pub struct StdTeller<'a, E> {
    errors: E,
    listens: bool,
    /// The number of bytes of the clips of the media folder.
    held: &'a Cell<u64>,
    /// The number of ticks in the last report on a film.
    told: u64,
}

impl<'a, E: Eprint + Drop> StdTeller<'a, E> {
    /// Returns a teller that writes to `errors`. `held` has the number of bytes of the clips of the media folder once
    /// they were read.
    pub fn new(errors: E, is_terminal: bool, held: &'a Cell<u64>) -> StdTeller<'a, E> {
        StdTeller {
            errors,
            listens: is_terminal,
            held,
            told: 0,
        }
    }
}

impl<'a, E: Eprint + Drop> Teller for StdTeller<'a, E> {
    fn listens(&self) -> bool {
        self.listens
    }

    fn tell_refused_word(&mut self, line: u64, text: &[u8], word: usize) {
        say_refused_word(&self.errors, line, text, word);
    }

    fn tell_faulty_cue(&mut self, line: u32, fault: LineFault) {
        say_faulty_cue(&self.errors, line, fault);
    }

    fn tell_no_end(&mut self) {
        say_no_end(&self.errors);
    }

    fn tell_refused_cue(&mut self, cue: RefusedCue<'_>) {
        say_refused_cue(&self.errors, cue);
    }

    fn tell_cues(&mut self, refused: u64, played: u64) {
        say_cues(&self.errors, refused, played);
    }

    fn tell_recorded(&mut self, bytes: u64, folder: &str) {
        say_recorded(&self.errors, bytes, folder, self.held.get());
    }

    fn tell_film(&mut self, ticks: u64, all: u64, frames: u32) {
        let is_due = ticks == all || ticks % TICKS_BETWEEN_WORDS == 0;
        if self.listens && is_due && ticks != self.told {
            say_film(&self.errors, ticks, all, frames);
            self.told = ticks;
        }
    }
}

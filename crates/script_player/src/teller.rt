//! Reports on a run for a person, beside its output.

use crate::reply::RefusalLine;
use play_schedule::{LineFault, Timecode};

/// The most refused cues of a sheet that are reported one by one. Those after them are only counted.
pub const MAX_TOLD_CUES: u64 = 20;

/// A cue of a sheet that was refused.
#[derive(Clone, Copy)]
pub struct RefusedCue<'a> {
    /// The number of its line in the sheet, from 1.
    pub line: u32,
    /// When it was due.
    pub time: Timecode,
    /// The first line of the reply to it.
    pub reply: RefusalLine<'a>,
    /// The text of the connection's line.
    pub text: &'a [u8],
    /// The position of the word for which it was refused with 403, from 0, if there is such a word.
    pub word: Option<usize>,
}

/// Receives reports on a run for a person. It changes nothing that is read or written.
pub trait Teller {
    /// Returns whether a person listens. If not, the word for which a line is refused is neither looked for nor reported.
    fn listens(&self) -> bool;

    /// Reports that a line of a script was refused with 403 for one of its words. `line` is the number of the line, from 1, `text` is the
    /// text of the connection in it, and `word` is the position of the word in that text, from 0.
    fn tell_refused_word(&mut self, line: u64, text: &[u8], word: usize);

    /// Reports the faulty line of a cue sheet, at which the run ends: its number, from 1, and what is wrong with it.
    fn tell_faulty_cue(&mut self, line: u32, fault: LineFault);

    /// Reports that a cue sheet has no END, for which the run ends.
    fn tell_no_end(&mut self);

    /// Reports the progress of writing a film: `ticks` ticks of the history were made again, of `all` up to the last recorded one, and
    /// `frames` frames of the film were written.
    fn tell_film(&mut self, _ticks: u64, _all: u64, _frames: u32) {}

    /// Reports that the whole file of a film was written. It has `bytes` bytes, and `folder` is the media folder of the configuration.
    fn tell_recorded(&mut self, _bytes: u64, _folder: &str) {}

    /// Reports a refused cue of a sheet. Only the first [`MAX_TOLD_CUES`] of a sheet are reported.
    fn tell_refused_cue(&mut self, _cue: RefusedCue<'_>) {}

    /// Reports how many of the `played` cues of a sheet were refused, after the sheet or the run has ended.
    fn tell_cues(&mut self, _refused: u64, _played: u64) {}
}

/// A teller that reports nothing.
#[derive(Clone, Copy, Debug)]
pub struct Silent;

impl Teller for Silent {
    fn listens(&self) -> bool {
        false
    }

    fn tell_refused_word(&mut self, _line: u64, _text: &[u8], _word: usize) {}

    fn tell_faulty_cue(&mut self, _line: u32, _fault: LineFault) {}

    fn tell_no_end(&mut self) {}
}

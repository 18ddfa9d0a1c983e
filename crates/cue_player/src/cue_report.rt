//! The report on the cues of a sheet while they are played.

use play_schedule::{CuePlace, Timecode};
use play_session::illegal_word;
use play_types::{ILLEGAL_WORD, Reply};
use script_player::{MAX_TOLD_CUES, RefusalLine, RefusedCue, Teller, is_refusal};
use server_setup::ServerSetup;
use std::alloc::Global;

/// Counts the cues that are played and those that are refused, and reports them to a teller.
#[derive(Drop)]
pub struct CueReport<'a, T> {
    teller: &'a mut T,
    place: CuePlace,
    played: u64,
    refused: u64,
}

impl<'a, T: Teller> CueReport<'a, T> {
    /// Returns a report of no cues.
    pub fn new(teller: &'a mut T) -> CueReport<'a, T> {
        CueReport {
            teller,
            place: CuePlace { line: 0, moment: 0 },
            played: 0,
            refused: 0,
        }
    }

    /// Sets the place in the sheet of the step that is played next.
    pub fn come_to(&mut self, place: CuePlace) {
        self.place = place;
    }

    /// Counts the cue that is played next.
    pub fn count(&mut self) {
        self.played = self.played.saturating_add(1);
    }

    /// Takes the text of the cue that was counted last and the reply to it. A refused cue is counted, and reported if it is among the
    /// first [`MAX_TOLD_CUES`] refused ones.
    pub fn take(&mut self, alloc: Global, setup: &ServerSetup, text: &[u8], reply: Option<Reply>) {
        if let Some(reply) = reply
            && is_refusal(&reply)
        {
            self.refused = self.refused.saturating_add(1);
            if self.refused <= MAX_TOLD_CUES {
                self.tell(alloc, setup, text, &reply);
            }
        }
    }

    /// Reports how many cues were played, and how many of them were refused.
    pub fn end(&mut self) {
        self.teller.tell_cues(self.refused, self.played);
    }

    /// Reports that a cue was refused with this reply.
    fn tell(&mut self, alloc: Global, setup: &ServerSetup, text: &[u8], reply: &Reply) {
        self.teller.tell_refused_cue(RefusedCue {
            line: self.place.line,
            time: Timecode::of(self.place.moment, setup.config.rate()),
            reply: RefusalLine(reply),
            text,
            word: word_at_fault(alloc, setup, text, reply),
        });
    }
}

/// Returns the position of the word for which a line was refused with this reply, or `None` if it was not refused for a word, or if there
/// is no memory for finding the word.
fn word_at_fault(alloc: Global, setup: &ServerSetup, text: &[u8], reply: &Reply) -> Option<usize> {
    if !matches!(reply, Reply::Refused(ILLEGAL_WORD, _)) {
        return None;
    }
    illegal_word(alloc, &setup.config, &setup.names, text).ok()?
}

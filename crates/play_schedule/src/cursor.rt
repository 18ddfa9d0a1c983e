//! A position in the order of copies.
ghost use Rattle.std.specs.Prelude.{◌≡◌, ◌+◌, ◌<◌, ◌≤◌, ◌∷◌, ◌++◌, ℕ, List, [], nat_lt, replicate, true};
ghost use Rattle.history_model.specs.scripts.Line.{Ticks};
ghost use Rattle.history_model.specs.declared.limits.TheConstants.{MAX_TICKS_PER_LINE};
ghost use Rattle.play_schedule.specs.declared.cue.Cue.{Cue as Cued};
ghost use Rattle.play_schedule.specs.Order.{are_of, lines_left};
ghost use Rattle.play_schedule.specs.Cursor.{IsWithin, left_of};

use crate::order::Order;
use history_model::MAX_TICKS_PER_LINE;

/// A position in the order of copies: the ticks that were taken, the copies that come next, and those that come later.
#[derive(Drop)]
pub struct Cursor {
    /// The number of ticks that were taken.
    pub taken: u32,
    /// The number of ticks of the sheet.
    pub ticks: u32,
    /// The moment of the copies that come next.
    pub moment: u32,
    /// The number of their cue.
    pub cue: usize,
    /// How many of them are left.
    pub copies: u32,
    pub later: Order,
}

impl Cursor {
    /// Returns the position before the first copy.
    pub fn new(later: Order, ticks: u32) -> Cursor
        ensures left { (cues : List Cued) → left_of cues result ≡ lines_left cues ticks 0 later.entries }
        ensures within { (cues : ℕ) → are_of cues later.entries ≡ true → IsWithin cues result }
    {
        Cursor {
            taken: 0,
            ticks,
            moment: 0,
            cue: 0,
            copies: 0,
            later,
        }
    }

    /// Goes on to the next copies, or to the end of the sheet, unless a copy or a tick comes before them.
    pub fn turn(&mut self)
        ensures left { (cues : List Cued) → left_of cues self.new ≡ left_of cues self.old }
        ensures within { (cues : ℕ) → IsWithin cues self.old → IsWithin cues self.new }
        ensures last { (cues : ℕ) → IsWithin cues self.old → self.new.copies ≡ 0 → self.new.moment ≤ self.new.taken
            → (self.new.ticks ≤ self.new.taken) × (self.new.later.entries ≡ []) }
    {
        if self.copies > 0 || self.is_waiting() {
            return;
        }
        match self.later.pop_first() {
            Some(((moment, cue), copies)) => {
                self.moment = moment;
                self.cue = cue;
                self.copies = copies;
            }
            None => self.moment = self.ticks,
        }
    }

    /// Returns whether a tick comes next.
    pub fn is_waiting(&self) -> bool
        ensures { result ≡ nat_lt self.now.taken self.now.moment }
    {
        self.taken < self.moment
    }

    /// Takes the ticks that come next, at most as many as a step may have, and returns their number.
    pub fn wait(&mut self) -> u32
        requires { self.old.taken < self.old.moment }
        ensures some { 1 ≤ result }
        ensures few { result ≤ MAX_TICKS_PER_LINE }
        ensures left { (cues : List Cued) → left_of cues self.old ≡ replicate result (Ticks 1) ++ left_of cues self.new }
        ensures within { (cues : ℕ) → IsWithin cues self.old → IsWithin cues self.new }
    {
        let ticks = (self.moment - self.taken).min(MAX_TICKS_PER_LINE);
        self.taken += ticks;
        ticks
    }
}

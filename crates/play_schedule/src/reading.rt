//! What was read of a sheet.
ghost use Rattle.std.specs.Prelude.{◌≡◌, ℕ, false, nat_lt};
ghost use Rattle.std.specs.Option.{ForSome};
ghost use Rattle.play_schedule.specs.Due.{copies_in, is_due_after};

use crate::cue::Cue;

/// What was read of a sheet so far, in which no line was faulty.
#[derive(Drop)]
pub struct Reading {
    pub cues: Vec<Cue>,
    /// The number of the line of each cue, from 1.
    pub numbers: Vec<u32>,
    /// The number of the copies of all cues.
    pub copies: u32,
    /// The latest moment of a copy, and 0 if there is none.
    pub latest: u32,
    /// The number of ticks that END names, once it was read.
    pub ticks: Option<u32>,
    /// The number of lines that were read.
    pub lines: u32,
    ghost counted: { copies ≡ copies_in cues.items },
    ghost due: { (moment : ℕ) → nat_lt moment latest ≡ is_due_after moment cues.items },
    ghost within: { ForSome ticks (λ ticks. is_due_after ticks cues.items ≡ false) },
}

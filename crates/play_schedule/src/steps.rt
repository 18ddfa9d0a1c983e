//! The steps of a sheet.
ghost use Rattle.std.specs.Prelude.{◌≡◌, IfOk, OnErr};
ghost use Rattle.play_schedule.specs.Unfolding.{script_of};
ghost use Rattle.play_schedule.specs.Steps.{TakesStep};

use crate::cue::Cue;
use crate::cursor::Cursor;
use crate::order::order_of;
use crate::sheet::Sheet;
use play_types::{ByteList, Tag};
use std::alloc::{AllocError, Global};
use std::marker::Model;

/// A step of a sheet.
#[derive(Debug, Drop)]
pub enum SheetStep {
    /// A number of ticks of all channels, from 1 to 100,000.
    Ticks(u32),
    /// A line of a connection.
    Line(Tag, ByteList),
}

/// The line and the moment of a copy of a cue line.
#[derive(Clone, Copy, Debug, PartialEq, Eq)]
pub struct CuePlace {
    /// The number of its line in the sheet, from 1.
    pub line: u32,
    /// The moment at which it is due.
    pub moment: u32,
}

/// The steps of a sheet that are left. Contracts see the lines of its script that are left, with a line for each tick.
#[derive(Drop)]
pub struct SheetSteps<'a> {
    cues: &'a [Cue],
    numbers: &'a [u32],
    cursor: Cursor,
}

impl<'a> Model for SheetSteps<'a> {
    ghost use Rattle.std.specs.Prelude.{List, length};
    ghost use Rattle.history_model.specs.scripts.Line.{ScriptLine};
    ghost use Rattle.play_schedule.specs.Cursor.{IsWithin, left_of};

    ghost Value = { List ScriptLine };

    ghost view = { λ s. left_of s.cues.now s.cursor };

    ghost invariant = { λ s. IsWithin (length s.cues.now) s.cursor };
}

impl Sheet {
    /// Returns the steps of the sheet, before the first. Allocates the memory for the order of the copies.
    pub fn steps(&self, alloc: Global) -> Result<SheetSteps<'_>, AllocError>
        ensures { IfOk result (λ steps. steps ≡ script_of self.now) }
    {
        let later = order_of(alloc, self.cues.as_slice(), self.ticks)?;
        Ok(SheetSteps {
            cues: self.cues.as_slice(),
            numbers: self.numbers.as_slice(),
            cursor: Cursor::new(later, self.ticks),
        })
    }
}

impl<'a> SheetSteps<'a> {
    /// Takes the next step, with a copy of its text, and returns `None` exactly if all copies and all ticks of the
    /// sheet were taken. If memory runs out, the steps are as before.
    pub fn next(&mut self, alloc: Global) -> Result<Option<SheetStep>, AllocError>
        ensures ok { IfOk result (λ step. TakesStep self.old step self.new) }
        ensures err { OnErr result (self.new ≡ self.old) }
    {
        self.cursor.turn();
        if self.cursor.is_waiting() {
            return Ok(Some(SheetStep::Ticks(self.cursor.wait())));
        }
        if self.cursor.copies == 0 {
            return Ok(None);
        }
        let cue = &self.cues[self.cursor.cue];
        let text = copied(alloc, &cue.text)?;
        self.cursor.copies -= 1;
        Ok(Some(SheetStep::Line(cue.tag, text)))
    }

    /// Returns the line and the moment of the copy that [`SheetSteps::next`] has just returned, for messages. Before the first
    /// copy and after ticks, it has no meaning.
    pub fn place(&self) -> CuePlace {
        CuePlace {
            line: self.numbers.get(self.cursor.cue).copied().unwrap_or(0),
            moment: self.cursor.taken,
        }
    }
}

/// Returns a copy of a text.
fn copied(alloc: Global, text: &ByteList) -> Result<ByteList, AllocError>
    ensures { IfOk result (λ copy. copy ≡ text.now) }
{
    Ok(ByteList::new(text.as_slice().to_vec(alloc)?))
}

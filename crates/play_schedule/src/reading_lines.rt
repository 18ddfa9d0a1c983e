//! Reading of a sheet line by line.
ghost use Rattle.std.specs.Prelude.{◌≡◌, ◌+◌, ◌-◌, ◌*◌, ◌^◌, ◌<◌, ◌∷◌, ◌++◌, List, [], None, OnOk, false};
ghost use Rattle.play_schedule.specs.Line.{SheetLine as Said};
ghost use Rattle.play_schedule.specs.Line as line;
ghost use Rattle.play_schedule.specs.Sheet.{IsReadAs, cue_after, cues_of, end_of, ended_sheet, first_moment, is_cue_faulty, moment_before};
ghost use Rattle.play_schedule.specs.inner.Views.{cue_view, line_view};
ghost use Rattle.play_schedule.specs.inner.Reading.{HasRead, TakesLine};

use crate::cue::{Copies, Cue, Start};
use crate::limits::{MAX_COPIES, MAX_MOMENT};
use crate::line::{CueLine, SheetLine};
use crate::reading::Reading;
use crate::sheet::{Sheet, SheetFault};
use play_types::ByteList;
use std::alloc::{AllocError, Global};

impl Reading {
    /// Creates the state before the first line.
    pub fn new(alloc: Global) -> Reading
        ensures { HasRead result [] }
    {
        Reading {
            cues: Vec::new(alloc),
            numbers: Vec::new(alloc),
            copies: 0,
            latest: 0,
            ticks: None,
            lines: 0,
        }
    }

    /// Reads the next line. Returns the fault of the line if it is faulty.
    pub fn take(&mut self, alloc: Global, line: SheetLine<'_>) -> Result<(), SheetFault>
        requires room { self.old.lines < u32.MAX }
        ensures lines { OnOk result (self.new.lines ≡ self.old.lines + 1) }
        ensures takes { (before : List Said) → HasRead self.old before → TakesLine before (line_view line.entry) result self.new }
    {
        match line {
            SheetLine::Comment => {
                self.lines += 1;
                Ok(())
            }
            SheetLine::Cue(cue) => self.take_cue(alloc, cue),
            SheetLine::End(moment) => self.take_end(moment),
            SheetLine::Malformed => Err(self.fault()),
        }
    }

    /// Reads a cue line. Returns the fault of the line if it is faulty.
    fn take_cue(&mut self, alloc: Global, cue: CueLine<'_>) -> Result<(), SheetFault>
        requires room { self.old.lines < u32.MAX }
        ensures lines { OnOk result (self.new.lines ≡ self.old.lines + 1) }
        ensures takes { (before : List Said) → HasRead self.old before → TakesLine before (line.Cue (cue_view cue.entry)) result self.new }
    {
        if self.ticks.is_some() || self.is_cue_faulty(cue) {
            return Err(self.fault());
        }
        self.add(alloc, cue)?;
        self.lines += 1;
        Ok(())
    }

    /// Reads an END. Returns the fault of the line if it is faulty.
    fn take_end(&mut self, moment: u32) -> Result<(), SheetFault>
        requires room { self.old.lines < u32.MAX }
        ensures lines { OnOk result (self.new.lines ≡ self.old.lines + 1) }
        ensures takes { (before : List Said) → HasRead self.old before → TakesLine before (line.End moment) result self.new }
    {
        if self.ticks.is_some() || moment < self.latest {
            return Err(self.fault());
        }
        self.ticks = Some(moment);
        self.lines += 1;
        Ok(())
    }

    /// Returns the sheet, or `NoEnd` if no END was read.
    pub fn finish(self) -> Result<Sheet, SheetFault>
        ensures { (before : List Said) → HasRead self before → IsReadAs (ended_sheet (cues_of before) (end_of before)) result }
    {
        match self.ticks {
            Some(ticks) => Ok(Sheet {
                cues: self.cues,
                numbers: self.numbers,
                ticks,
            }),
            None => Err(SheetFault::NoEnd),
        }
    }

    /// Returns the fault of the line that comes next.
    fn fault(&self) -> SheetFault
        requires { self.now.lines < u32.MAX }
        ensures { result ≡ SheetFault.Line (self.now.lines + 1) }
    {
        SheetFault::Line { at: self.lines + 1 }
    }

    /// Returns whether a cue line has a moment out of range, or too many copies together with those before it.
    fn is_cue_faulty(&self, line: CueLine<'_>) -> bool
        ensures { result ≡ is_cue_faulty self.now.cues.items (cue_view line.entry) }
    {
        let moment = first_moment(self.cues.as_slice(), line.start);
        last_moment(moment, line.copies) > u64::from(MAX_MOMENT)
            || u64::from(self.copies) + u64::from(line.copies.count) > u64::from(MAX_COPIES)
    }

    /// Adds the cue of a line that is not faulty.
    fn add(&mut self, alloc: Global, line: CueLine<'_>) -> Result<(), AllocError>
        requires range { is_cue_faulty self.old.cues.items (cue_view line) ≡ false }
        requires going { self.old.ticks ≡ None }
        ensures cues { OnOk result (self.new.cues.items ≡ self.old.cues.items ++ cue_after self.old.cues.items (cue_view line.entry) ∷ []) }
        ensures ticks { OnOk result (self.new.ticks ≡ None) }
        ensures lines { OnOk result (self.new.lines ≡ self.old.lines) }
    {
        let moment = first_moment(self.cues.as_slice(), line.start);
        let last = last_moment(moment, line.copies);
        let text = ByteList::new(line.text.to_vec(alloc)?);
        self.numbers.push(self.lines.saturating_add(1))?;
        self.cues.reserve(1)?;
        self.cues.push_reserved(Cue {
            moment: moment as u32,
            copies: line.copies,
            tag: line.tag,
            text,
        });
        self.copies += line.copies.count;
        self.latest = self.latest.max(last as u32);
        Ok(())
    }
}

/// Returns the moment of the first copy of a cue line after these cues.
fn first_moment(cues: &[Cue], start: Start) -> u64
    ensures value { result ≡ first_moment cues.now start }
    ensures range { result < 2 ^ 33 }
{
    match start {
        Start::At(moment) => u64::from(moment),
        Start::After(ticks) => u64::from(moment_before(cues)) + u64::from(ticks),
    }
}

/// Returns the moment of the last of these cues, and 0 if there is none.
fn moment_before(cues: &[Cue]) -> u32
    ensures { result ≡ moment_before cues.now }
{
    match cues.last() {
        Some(cue) => cue.moment,
        None => 0,
    }
}

/// Returns the moment of the last copy, if the first is due at `moment`.
fn last_moment(moment: u64, copies: Copies) -> u64
    requires { moment < 2 ^ 33 }
    ensures { result ≡ moment + (copies.count - 1) * copies.interval }
{
    moment + u64::from(copies.count.saturating_sub(1)) * u64::from(copies.interval)
}

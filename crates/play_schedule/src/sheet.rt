//! Cue sheets.
ghost use Rattle.std.specs.Prelude.{◌≡◌, ◌≤◌, ◌∷◌, [], length, MatchOption};
ghost use Rattle.std.specs.Str.Lines.{lines};
ghost use Rattle.play_schedule.specs.Sheet.{IsReadAs, sheet_of};
ghost use Rattle.play_schedule.specs.inner.Lines.{StartsWithLine};

use crate::cue::Cue;
use crate::limits::MAX_SHEET_BYTES;
use crate::line::line_of;
use crate::reading::Reading;
use crate::words::parts_at;
use amcp_text::without_carriage_return;
use std::alloc::{AllocError, Global};
use std::error::Error;
use std::fmt;
use std::marker::Model;

/// A cue sheet: the lines that connections send, each with the moments at which it is due, and a number of ticks.
#[derive(Debug, Drop)]
pub struct Sheet {
    pub(crate) cues: Vec<Cue>,
    /// The number of the line of each cue, from 1.
    pub(crate) numbers: Vec<u32>,
    pub(crate) ticks: u32,
}

impl Model for Sheet {
    ghost use Rattle.std.specs.Prelude.{◌≡◌, false};
    ghost use Rattle.play_schedule.specs.SheetView.{SheetView};
    ghost use Rattle.play_schedule.specs.Due.{is_due_after};

    ghost Value = { SheetView };

    ghost view = { λ s. record { cues = s.cues.items; ticks = s.ticks } };

    ghost invariant = { λ s. is_due_after s.ticks s.cues.items ≡ false };
}

/// Why a text is no cue sheet.
#[derive(Clone, Copy, Debug, PartialEq, Eq)]
pub enum SheetFault {
    /// The line of this number, from 1, is the first faulty one: it has none of the forms of a sheet or more than 8,192 bytes,
    /// it follows END, it has a moment after [`MAX_MOMENT`](crate::MAX_MOMENT), the copies with its own are more than
    /// [`MAX_COPIES`](crate::MAX_COPIES), or it is an END before the moment of a copy.
    Line { at: u32 },
    /// No line is faulty, and none is END.
    NoEnd,
    /// Memory ran out before the sheet was read.
    OutOfMemory,
}

impl fmt::Display for SheetFault {
    fn fmt<W: fmt::Write>(&self, f: &mut fmt::Formatter<W>) -> fmt::Result {
        match self {
            SheetFault::Line { at } => write!(f, "line {at} is not valid"),
            SheetFault::NoEnd => write!(f, "no line is END"),
            SheetFault::OutOfMemory => write!(f, "out of memory"),
        }
    }
}

impl Error for SheetFault {}

impl From<AllocError> for SheetFault {
    ghost use Rattle.std.specs.Prelude.{◌≡◌};
    ghost use Rattle.play_schedule.specs.declared.sheet.SheetFault.TheVariants.{OutOfMemory};

    ghost from_gives = { λ _ fault. fault ≡ OutOfMemory };

    fn from(_error: AllocError) -> SheetFault {
        SheetFault::OutOfMemory
    }
}

/// Reads a cue sheet, with `rate` frames a second in its timecodes.
///
/// A line ends at LF, and one CR before it belongs to the end. Empty lines and those that begin with `#` are ignored. The other
/// lines are `AT time w.s text`, `AT time EVERY n TIMES k w.s text`, `AFTER n w.s text`, and finally `END time`.
///
/// [`SheetFault::Line`] names the first faulty line, and [`SheetFault::NoEnd`] is returned exactly if no line is faulty and
/// none is END.
pub fn read_sheet(alloc: Global, bytes: &[u8], rate: u32) -> Result<Sheet, SheetFault>
    requires { length bytes.now ≤ MAX_SHEET_BYTES }
    ensures { IsReadAs (sheet_of rate bytes.now) result }
{
    let mut reading = Reading::new(alloc);
    let mut rest = bytes;
    while let Some((line, after)) = first_line(rest) {
        reading.take(alloc, line_of(rate, line))?;
        rest = after;
    }
    reading.finish()
}

/// Returns the first line of a text and what follows it, if the text is not empty.
pub fn first_line(text: &[u8]) -> Option<(&[u8], &[u8])>
    ensures { MatchOption result (text.now ≡ []) (λ found. StartsWithLine text.now found.0.now found.1.now) }
{
    if text.is_empty() {
        return None;
    }
    match parts_at(b'\n', text) {
        Some((line, rest)) => Some((without_carriage_return(line), rest)),
        None => Some((text, &[])),
    }
}

//! Cue sheets: lines of connections, each with the moment at which it is due.
//!
//! [`read_sheet`] reads a sheet, or returns the first fault that it has. [`Sheet::steps`] orders the copies of its lines, and
//! [`SheetSteps::next`] returns them one by one, with the ticks between them. These steps are the unfolding of the sheet: for
//! each moment its lines, and then, before the end, one tick. [`fault_at`] returns what is wrong with a faulty line,
//! [`SheetSteps::place`] the line and the moment of a copy, and [`Timecode::of`] a moment as a timecode. [`parts_at`] and
//! [`tag_of`] read the words of lines of other kinds too.
//!
//! The definitions of times, lines, sheets and unfoldings are in `specs/`. The modules `examples` and `laws` show what they
//! mean.
#![tactic(auto)]

mod cue;
mod cursor;
pub mod examples;
pub mod laws;
mod limits;
mod line;
mod line_fault;
mod order;
mod reading;
mod reading_lines;
mod sheet;
mod steps;
mod time;
mod timecode;
mod words;

pub use limits::{MAX_COPIES, MAX_LINE_COPIES, MAX_MOMENT, MAX_SHEET_BYTES};
pub use line::tag_of;
pub use line_fault::{LineFault, fault_at};
pub use sheet::{Sheet, SheetFault, read_sheet};
pub use steps::{CuePlace, SheetStep, SheetSteps};
pub use timecode::Timecode;
pub use words::parts_at;

//! Plays cue sheets: each line of a sheet exactly at its moment.
//!
//! [`SheetRun::play`] reads a sheet to its end. If a line of it is faulty it refuses the sheet, otherwise it plays the script to which the
//! sheet unfolds. The cues that are refused are reported to a teller.
#![tactic(auto)]

mod cue_report;
mod planning;

pub use planning::SheetRun;

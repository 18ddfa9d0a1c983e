//! A history is played again from its text.
//!
//! The text of a history is a script. The laws here state that a run of this script has that history, and writes its answers
//! and its frames. The same holds for a log, which is the text of a history that was written in pieces. A log that was cut
//! makes the beginning of the history. No function of this crate does anything when it runs.
#![tactic(auto)]

pub mod examples;
pub mod laws;
mod limits;

pub use limits::MAX_PRINTED_NAME_BYTES;

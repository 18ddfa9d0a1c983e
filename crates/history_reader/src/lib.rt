//! Reads a history from its text, or from a log, for a run that goes on from it.
//!
//! [`read_history`] plays each whole line of an input as the player of scripts does, and returns the stage with the events. A line that
//! no history has is refused by its number. The stop at the end of a history is left out, and so are the bytes after the last line feed
//! and a batch that is not closed. So the text of a history reads back as its events, and what a killed server leaves of a log as the
//! first of them. A [`ReadTeller`] receives reports for a person on how far the reading is.
#![tactic(auto)]

pub mod examples;
mod fault;
pub mod laws;
mod line_player;
mod reading;
mod teller;
mod text;

pub use fault::ReadHistoryFault;
pub use reading::{MAX_HISTORY_BYTES, ReadHistory, read_history};
pub use teller::{NoTeller, ReadTeller};

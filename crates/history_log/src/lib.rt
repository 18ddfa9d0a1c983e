//! The log: the text of a history that is written while the history goes on.
//!
//! [`keep_log`] reads the journal of a shared stage from time to time, writes the events that have come since, and ends after the stop.
//! Its contract states which events were written, as pieces of the history, and that the sink has the text of these pieces. Each read
//! copies a bounded number of events in its turn, and the text is made and written after it, so that no other thread waits for the sink.
#![tactic(auto)]

mod keeping;
mod runs;

pub use keeping::keep_log;

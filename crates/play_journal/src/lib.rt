//! The journal of a stage: the commands, batches, ticks and the stop that have happened, in order.
//!
//! Contracts see a [`Journal`] as the most commands that it may hold and the list of its events. A push adds one event at
//! the end or, if it gives a fault, changes nothing. The events are read back as runs, in which ticks that follow one
//! another are one item.
#![tactic(auto)]

mod entries;
mod events;
pub mod examples;
mod fault;
mod journal;
pub mod laws;
mod place;
mod room;

pub use events::{EventRun, Events};
pub use fault::PushFault;
pub use journal::Journal;
pub use place::Place;
pub use room::{LogRoom, LogRun, LogRuns, ROOM_COMMANDS, ROOM_RUNS};

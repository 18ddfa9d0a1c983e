//! One stage that threads share.
//!
//! [`SharedStage::share`] makes a number of passes, and each call takes the pass of its caller. All calls act on one history,
//! which continues from the events that the stage held when it was shared. A call finds a history that begins with what its
//! pass has seen, in which the pass's own events are exactly those that it made, and adds at most one event at its end. A
//! [`Note`] gives another pass what a pass has seen. When the passes are handed back, the stage is returned with the given
//! events and that history as its journal.
#![tactic(auto)]

pub mod examples;
mod note;
mod pass;
mod rule;
mod shared;
mod slot;
mod ticked;
mod view;

pub use note::Note;
pub use pass::Pass;
pub use shared::{MAX_PASSES, SharedStage};
pub use ticked::Ticked;

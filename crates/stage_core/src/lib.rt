//! The stage of a playout server, over its own journal.
//!
//! A [`Stage`] keeps the live places of each channel from event to event, and its contracts refer to its journal alone: the
//! answer to a command or a batch and the scenes of a tick are those that the definitions give for the journal before that
//! event. Every command and every batch must name only channels of the stage.
#![tactic(auto)]

mod channels;
mod command;
mod drawn;
mod easing;
pub mod examples;
mod fault;
mod live_state;
mod needed;
mod places;
mod seen;
mod settle;
mod stage;
mod status;

pub use fault::{ApplyFault, Ended, TickFault};
pub use seen::LayerView;
pub use stage::Stage;

//! What a viewer shows of a server, as documents of JSON.
//!
//! [`status_json`] writes what is on air after the history of a stage: how far the history is, and for each channel its size, its
//! levels and its layers, with the mixer values of each. [`events_json`] writes the events of a history that are no ticks, from a
//! position on, each with its place, its time and its lines. [`levels_of`] returns how loud the sound of a tick is.
//!
//! `specs/` defines both documents over the history alone, as lists of tokens, and the module `examples` has worked examples of
//! these definitions.
#![tactic(auto)]

mod counting;
mod document;
mod events;
pub mod examples;
mod layer;
mod levels;
mod lines;
mod mixer;
mod place;
mod producer;
mod status;
mod timecode;

pub use events::{MAX_EVENTS, events_json};
pub use levels::{Levels, levels_of};
pub use status::{StatusSource, status_json};

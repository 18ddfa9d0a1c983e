//! The mixer values of all places, and the settings that wait for a commit.
//!
//! Contracts see a [`Mixer`] as the value of each property of each place after any number of ticks, and the settings of
//! each channel that wait. A mixer represents a history, which is the acts so far and the ticks since it began, if its
//! values and its waiting settings are those that the definitions give for these acts. A new mixer represents the empty
//! history, each call keeps this with its command at the end of the acts, and [`laws`] says what else keeps it.
#![tactic(auto)]

mod course;
mod courses;
pub mod laws;
mod layers;
mod mixer;
mod places;
mod waiting;

pub use mixer::Mixer;

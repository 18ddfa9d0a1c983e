//! Writes the clip file of a film that was recorded in a script.
//!
//! [`FilmRun::record`] plays a script without writing its output, finds the film of a name in its history, and writes it.
#![tactic(auto)]

mod recording;

pub use recording::{FilmOptions, FilmRun};

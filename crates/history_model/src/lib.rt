//! What the server shows and answers, defined from the whole history of its events.
//!
//! The definitions are in `specs/`, and give each pixel and each sample by itself. The code has the limits of scripts, worked
//! examples, which the checker computes, and laws. No function of this crate does anything when it runs.
#![tactic(auto)]

pub mod examples;
pub mod laws;
mod limits;

pub use limits::{
    MAX_INPUT_BYTES, MAX_SCRIPT_LINE_BYTES, MAX_SESSION, MAX_TICKS_PER_LINE, MAX_WORKER,
};

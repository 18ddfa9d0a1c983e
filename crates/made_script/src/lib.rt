//! Generates scripts, and plays them for their summary.
//!
//! [`generate`] draws the lines of a script from a seed, plays them, and writes the numbers of their events and of their refusals, and
//! the digest of the output of the script.
#![tactic(auto)]

mod generating;
mod generator;
mod made_run;

pub use generating::{MAX_STEPS, generate};

//! What a server is set up with: a configuration, the clips of its folder and their names.
//!
//! `playrun` and `playd` are set up in one way, and end in one way if they cannot be: `set_up` reads and tests the
//! configuration and then the clips, and `RunFault` has each fault of a run with its exit status and its line. Which
//! fault comes first is `fault_of_files` in `specs/`.
#![tactic(auto)]

mod clip_line;
mod fault;
pub mod laws;
mod setup;

pub use fault::RunFault;
pub use setup::{ServerSetup, set_up};

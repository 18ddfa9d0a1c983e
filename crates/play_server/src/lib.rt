//! The server `playd`: its command line and its site.
//!
//! [`ServerWords`] are the arguments of its command line, parsed by `clap`. A [`Site`] has the folder of configuration and media, opens
//! the history that a run goes on from, gives the devices of a run and takes them back; [`MemSite`] and [`PlainSite`] are sites in
//! memory. [`serve_main`] is the whole program.
#![tactic(auto)]

mod ending;
pub mod examples;
mod in_memory;
mod program;
mod resumed;
mod resuming;
mod site;
mod words;

pub use in_memory::{MemSite, PlainSite};
pub use program::serve_main;
pub use resumed::Resumed;
pub use site::{FinishStep, ReadyCall, Site};
pub use words::{ServerWords, ServerWordsFault};

//! The configuration of a server, read from the bytes of its file.
//!
//! The bytes are a text in TOML. `read_config` returns the configuration, with the defaults for what the text leaves out, or
//! the first key that is missing, of another type or out of range, or else the first key that is unknown. `faults_of` in
//! `specs/` defines their order. `explain` describes for a person why bytes are refused. The module `examples` shows texts.
#![tactic(auto)]

mod channels;
mod config;
mod defaults;
pub mod examples;
mod explanation;
mod fault;
mod keys;
mod section;

pub use config::read_config;
pub use defaults::{DEFAULT_CONNECTIONS, DEFAULT_JOURNAL_LIMIT, DEFAULT_PAIRS};
pub use explanation::explain;
pub use fault::ConfigFault;

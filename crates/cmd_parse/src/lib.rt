//! Reads the words of a client's line as a command, or refuses them.
//!
//! `parse` takes the words of one line, the channels of the configuration and the names of the media table. For every line
//! its result is what `history_model`'s definition of commands says: the command with its options, or the refusal that
//! comes first. The module `examples` shows what lines mean by that definition.
#![tactic(auto)]

mod area;
mod command;
pub mod examples;
mod keyword;
mod line;
mod mixer;
mod options;
mod producer;
mod recording;
mod take;

pub use command::parse;

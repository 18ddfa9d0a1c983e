//! Commands and events as text.
//!
//! A client's line with the text of a command asks for that command again, and the text of a history is a script. The result
//! is `Failed` only if the sink failed, and then a prefix of the text was written.
#![tactic(auto)]

mod command;
mod event;
pub mod laws;
mod quote;
mod setting;
mod take;
mod text;
mod word;

pub use command::print;
pub use event::{add_batch, add_command_line, add_event, add_stop, add_ticks, print_event};

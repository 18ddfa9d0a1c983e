//! The state of one connection: the bytes of an unfinished line, and an open batch or none.
//!
//! A `Session` takes a client's bytes in pieces of any size and returns a step for each line. However the stream is cut, the
//! steps are those that the definition in `history_model` gives for the whole stream. A batch has at most `MAX_BATCH_COMMANDS`
//! commands, and its memory is allocated when the session is created.
#![tactic(auto)]

mod batch;
pub mod examples;
mod illegal;
mod meaning;
mod request;
mod session;
mod step;

pub use illegal::illegal_word;
pub use session::Session;
pub use step::Step;

//! The replies to a client as bytes.
//!
//! A reply is one or more lines, each ended by CR LF. It can also be sent when memory has run out. The result is `Failed`
//! only if the sink failed, and then a prefix of the reply was written. The module `examples` shows the lines of replies, and
//! `laws` states that each answer of the stage has a reply that can be sent.
#![tactic(auto)]

pub mod examples;
pub mod laws;
mod line;
mod media;
mod reply;
mod status;
mod value;

pub use reply::{refusal, send_reply, send_reply_lines};

//! Connections that are served from one stage.
//!
//! [`serve_link`] reads a client's bytes from a link, executes each line on the shared stage, and writes the reply before it
//! goes on to the next line. However the bytes are split, the history of the stage has each event of the connection once and in
//! order, and each reply is the one that the definitions give after the history that was found.
//! [`work`] serves the links of a door, one after another. A [`Server`] holds what all connections of a server share.
#![tactic(auto)]

mod connection;
mod door;
pub mod examples;
pub mod laws;
mod link_end;
mod serve;
mod server;
mod work_end;

pub use door::work;
pub use link_end::LinkEnd;
pub use serve::serve_link;
pub use server::Server;
pub use work_end::{MAX_SESSIONS, WorkEnd};

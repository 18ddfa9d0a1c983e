//! The viewer `playview`: its command line, and what it shows of a log.
//!
//! [`ViewerWords`] are the arguments of its command line, parsed by `clap`. A [`Desk`] has the folder of configuration and media, gives
//! the bytes of a log that grows and the requests of browsers, and takes their answers and the datagrams of status messages.
//! [`view_main`] is the whole program. Each answer is the page of exactly the bytes of the log that were taken before it, and after each
//! rest the status messages of the last tick are sent once (`Views` of `specs/Viewing.antt`).
#![tactic(auto)]

mod desk;
mod ending;
pub mod examples;
mod program;
mod viewing;
mod words;

pub use desk::{Asked, Desk, DeskStep};
pub use program::view_main;
pub use words::{MAX_RECEIVERS, ViewerWords, ViewerWordsFault};

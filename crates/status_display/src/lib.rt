//! Shows the ticks of a player by the status of all channels after each.
//!
//! A [`StatusDisplay`] writes for each tick the OSC messages of the channels and of their layers that have a foreground. It makes no
//! frames. [`status_datagrams`] returns the same messages after any history, each as the bytes of a datagram.
#![tactic(auto)]

mod datagrams;
mod status_display;

pub use datagrams::status_datagrams;
pub use status_display::StatusDisplay;

//! How far back the frames of a history are needed.
//!
//! A channel on which a route to a channel is drawn shows a frame of the tick before. So a frame may need frames of some ticks before it,
//! though most need none. `specs/` defines how many, and the laws state that frames which are made from there on are those of the whole
//! history. [`Depths`] counts these ticks for each channel, tick by tick, without a pixel.
#![tactic(auto)]

mod depths;
pub mod examples;
pub mod laws;

pub use depths::Depths;

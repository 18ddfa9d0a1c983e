//! The ticks of a server: pulses become ticks, and ticks become frames at the outputs.
//!
//! [`tick_all`] takes the pulses of a clock. For each it makes one tick of a shared stage, and another thread renders what the
//! stage shows at the tick, and writes the frame and the sound of each channel to the output of the channel, so that a slow output
//! delays a tick only while all scenes of the pipe are in use. Its contract states that the outputs then have the frames of exactly the
//! ticks of the history, as the definitions give them, and why the ticks have ended. [`Ticker::run`] does this with the stage and the
//! clips that the ticker holds.
#![tactic(auto)]

mod ending;
pub mod laws;
mod outputs;
mod staging;
mod ticks;
mod writing;

pub use ending::TickEnd;
pub use ticks::{PipeEnds, Ticker, tick_all};

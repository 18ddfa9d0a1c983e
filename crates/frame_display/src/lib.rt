//! Shows the ticks of a player by the frames of all channels.
//!
//! A [`FrameDisplay`] makes the frames of each tick, and writes them or their digests.
#![tactic(auto)]

mod frame_display;
mod frame_options;
mod tick_frames;

pub use frame_display::FrameDisplay;
pub use frame_options::FrameOptions;

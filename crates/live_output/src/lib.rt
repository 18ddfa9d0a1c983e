//! The queue of a live output: frames on their way from the run to readers that come and go.
//!
//! [`queue`] makes its two ends. A [`FrameCutter`] takes every byte that is written and gathers the bytes into frames
//! of one length; it hands a frame on whole, or drops it whole and counts it. A [`FrameWindow`] keeps those of the last
//! frames that some reader has not begun, and a [`LiveOutput`] gives them to readers. Each reader has its own position:
//! it gets whole frames in their order, beginning with one that came after the reader. Whole frames for which a reader
//! is too slow are skipped and counted.
//!
//! Only [`queue`] allocates memory for the bytes of frames, and no call waits. A byte is copied once, by the cutter.
#![tactic(auto)]

mod cutter;
mod ends;
pub mod examples;
mod frame;
mod limits;
mod output;
mod reader;
mod window;

pub use cutter::FrameCutter;
pub use ends::{queue, settle};
pub use frame::Frame;
pub use limits::{MAX_HELD_BYTES, MAX_READERS, MAX_WAITING, MIN_WAITING, MOVING, waiting_frames};
pub use output::LiveOutput;
pub use reader::{Progress, Reader};
pub use window::FrameWindow;

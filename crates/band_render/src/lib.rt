//! The frames and the sound of all channels, tick by tick.
//!
//! A [`Renderer`] keeps the frames of the last tick. [`Renderer::render`] makes the frame and the sound of each channel from the
//! scenes of the next tick, the clips, and the frames of the tick before, which then are the frames of the last tick. The rows of
//! the frames are cut into bands, which several threads make, each band after it has entered a [`Gate`]. Only [`Renderer::new`]
//! allocates. [`laws`] states that the frames are those that the definitions of `history_model` give.
#![tactic(auto)]

mod band;
mod bytes;
mod drawing;
pub mod examples;
mod gate;
pub mod laws;
mod plan;
mod renderer;
mod rendering;
mod rooms;
mod weights;

pub use gate::{Gate, OpenGate};
pub use renderer::Renderer;

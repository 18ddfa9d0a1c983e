//! The sound of channels.
//!
//! [`mix_sound`] writes the sound that a channel's scene makes at a tick, as the bytes of its stereo pairs. Each sample is the sum
//! of the samples of all layers, by the clips and by the sounds that the channels had at the tick before. [`laws`] states that these
//! are the sounds that the definitions of `history_model` give, and [`examples`] has worked sounds.
#![tactic(auto)]

pub mod examples;
pub mod laws;
mod mix;
mod sample;
mod sound;
mod sums;

pub use mix::mix_sound;

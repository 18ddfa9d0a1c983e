//! The arithmetic of pixels: laying one over another, fading, keying and mixing.
//!
//! A pixel has one byte each of blue, green, red and alpha, its colours multiplied by the alpha and never above it. Contracts see it
//! as a plain record of four numbers, and each call gives exactly its formula on whole numbers. No call allocates, and none fails.
//! [`laws`] has laws of the formulas, [`examples`] worked values.
#![tactic(auto)]

mod arithmetic;
mod byte;
pub mod examples;
pub mod laws;
mod pixel;

pub use arithmetic::{fade, key, mix, over};
pub use byte::{scaled, straight};
pub use pixel::Pixel;

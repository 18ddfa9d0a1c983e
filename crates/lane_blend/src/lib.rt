//! The arithmetic of pixels on whole rows.
//!
//! A row has four bytes a pixel: blue, green, red and alpha, each pixel's colours at or below its alpha. Each call does to every
//! pixel of a row what the call of the same name in [`pixel_math`] does to one, for rows of every length, and [`fill_row`] writes
//! one pixel at each column. [`RowFade`] and [`RowMix`] are prepared once for an opacity or for a step of a mix and used for many
//! rows. No call allocates, and none fails.
#![tactic(auto)]

mod fade;
mod fill;
mod key;
mod lanes;
mod lines;
mod mix;
mod over;
mod weights;

pub use fade::{RowFade, fade_row};
pub use fill::fill_row;
pub use key::key_row;
pub use mix::{RowMix, mix_row};
pub use over::over_row;

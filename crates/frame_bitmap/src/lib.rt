//! Frames as bitmaps, which every browser shows.
//!
//! A frame has rows of pixels from the top, of four bytes each: blue, green, red and alpha, the colours multiplied by the alpha.
//! [`bitmap`] returns the BMP file of a frame, of 32 bits a pixel, and scales the frame down if a smaller width is asked for.
//! A viewer of such a file ignores the fourth byte of a pixel, so it shows the frame over black. [`shown_size`] returns how many
//! columns and rows the file has.
#![tactic(auto)]

mod bmp_file;
mod dimensions;
pub mod examples;
mod header;
mod scaling;

pub use bmp_file::bitmap;
pub use dimensions::{Size, shown_size};

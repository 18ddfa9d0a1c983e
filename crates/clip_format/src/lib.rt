//! Clip files and the media table.
//!
//! A clip file is read by [`decode`] and written by [`encode`], byte for byte by the format RCLP: what is written reads
//! back as the clip. The fault of a file is the first one in the order that `clip_of` in `specs/` defines.
//!
//! The [`MediaTable`] keeps clips under their names, in rising order of the names' bytes, and a fault under the name of a
//! file that is no clip. Its clips are of version 1, and no pixel of them has a colour byte above its alpha.
//!
//! [`straight_clip`] makes a clip of version 2, whose colours are not multiplied by the alpha, that shows what the clip
//! shows.
//!
//! [`laws`] has laws of clip files, of prepared clips and of straight ones, and [`examples`] has worked files.
#![tactic(auto)]

mod decoding;
mod encoding;
pub mod examples;
mod header;
pub mod laws;
mod straight;
mod table;

pub use decoding::decode;
pub use encoding::{encode, send_header};
pub use straight::straight_clip;
pub use table::MediaTable;

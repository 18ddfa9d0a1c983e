//! Writes frames: raw, as lines of hexadecimal, or as digests.
//!
//! A writer returns `Failed` only if the sink failed, and then a prefix of the text was written, but not all of it. Channels
//! and ticks are counted from 1.
#![tactic(auto)]

mod digest_line;
mod hex_lines;
mod line;
mod raw;

pub use digest_line::write_digest;
pub use hex_lines::write_hex;
pub use raw::write_raw;

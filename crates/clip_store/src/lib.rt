//! Reads the media table from a folder of clip files.
//!
//! A file whose name ends in `.rclp`, in any ASCII case, is a clip file. Its clip's name is the file's name without
//! this ending, in ASCII upper case. A file that is no clip is in the table with its fault. [`scan`] prepares the
//! pixels in several threads: it lowers each colour byte that is above its alpha to the alpha, or, in a clip of version
//! 2, multiplies it by the alpha. The clips of the table are of version 1. The sound is not changed.
#![tactic(auto)]

pub mod examples;
mod fault;
mod names;
mod preparing;
mod reading;
mod scanning;

pub use fault::ScanFault;
pub use reading::MAX_MEDIA_BYTES;
pub use scanning::scan;

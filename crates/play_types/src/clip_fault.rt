//! Why a file is no clip.

use std::error::Error;
use std::fmt;

/// Why a file is no clip.
#[derive(Clone, Copy, Debug, PartialEq, Eq)]
pub enum ClipFault {
    /// The first four bytes are not `RCLP`.
    BadMagic,
    /// The version is neither 1 nor 2.
    BadVersion,
    /// The header field at byte `at` is not accepted. The fields before it are.
    BadField { at: usize },
    /// The file has `had` bytes, fewer than `needed`: the 20 bytes of a header, or what the header announces.
    Short { needed: u64, had: u64 },
    /// `extra` bytes follow the last frame.
    Long { extra: u64 },
    /// Memory ran out before the file was read.
    OutOfMemory,
}

impl fmt::Display for ClipFault {
    fn fmt<W: fmt::Write>(&self, f: &mut fmt::Formatter<W>) -> fmt::Result {
        match self {
            ClipFault::BadMagic => write!(f, "the file does not begin with RCLP"),
            ClipFault::BadVersion => write!(f, "the version is neither 1 nor 2"),
            ClipFault::BadField { at } => write!(
                f,
                "the header's field at byte {at} is out of range"
            ),
            ClipFault::Short { needed, had } => {
                write!(f, "the file has {had} bytes where {needed} are needed")
            }
            ClipFault::Long { extra } => write!(f, "{extra} bytes stand after the last frame"),
            ClipFault::OutOfMemory => write!(f, "out of memory"),
        }
    }
}

impl Error for ClipFault {}

//! How many bytes the clips of a folder have, for a person.

use crate::grouped::Grouped;
use clip_store::MAX_MEDIA_BYTES;
use std::fmt;

/// The sum of the lengths of the clip files that were read, in bytes, as the media table counts them: an empty file counts
/// as one byte.
#[derive(Clone, Copy)]
pub(crate) struct ClipBytes {
    total: u64,
}

/// A sum of the lengths of clip files that is above `MAX_MEDIA_BYTES`.
#[derive(Clone, Copy)]
pub(crate) struct TooMany {
    total: u64,
}

impl ClipBytes {
    /// Returns the sum before any file was read.
    pub(crate) fn new() -> ClipBytes {
        ClipBytes { total: 0 }
    }

    /// Adds the length of a file, and returns the new sum if it is above `MAX_MEDIA_BYTES`.
    pub(crate) fn add(&mut self, len: usize) -> Option<TooMany> {
        self.total = self.total.saturating_add(len.max(1) as u64);
        if self.total <= MAX_MEDIA_BYTES {
            return None;
        }
        Some(TooMany { total: self.total })
    }
}

impl fmt::Display for TooMany {
    fn fmt<W: fmt::Write>(&self, f: &mut fmt::Formatter<W>) -> fmt::Result {
        let (total, most) = (Grouped(self.total), Grouped(MAX_MEDIA_BYTES));
        write!(
            f,
            "with it the clips have {total} bytes, more than {most}: take clips out of the folder"
        )
    }
}

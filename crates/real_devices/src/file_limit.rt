//! How large a file may grow.
use std::alloc::AllocGlobal;
use std::fs;
use std::io::{Error, ErrorKind};
use std::rt::Files;

/// The file with the limits of the process that reads it.
const LIMITS: &str = "/proc/self/limits";

/// The beginning of the line with the limit on the size of a file. The number of bytes follows, or another word if
/// there is no limit.
const FILE_SIZE: &str = "Max file size";

/// Linux's number of the error of a write beyond the limit.
const FILE_TOO_LARGE: i32 = 27;

/// Returns the most bytes that a file of this process may have, if that is limited and known. A process that writes
/// beyond this size is ended by a signal.
pub(crate) fn largest_file<R: Files + AllocGlobal>(rt: &R) -> Option<u64> {
    let limits = fs::read_to_string(rt, LIMITS).ok()?;
    for line in limits.lines() {
        if let Some(rest) = line.strip_prefix(FILE_SIZE) {
            return rest.split_whitespace().next()?.parse().ok();
        }
    }
    None
}

/// How many more bytes a file may take, if that is limited.
#[derive(Clone, Copy)]
pub(crate) struct FileRoom {
    left: Option<u64>,
}

impl FileRoom {
    /// Returns the room of an empty file that may have `largest` bytes, if that is limited.
    pub(crate) const fn new(largest: Option<u64>) -> FileRoom {
        FileRoom { left: largest }
    }

    /// Fails if the file can take no more bytes. Of a piece that does not fit, the system writes what fits.
    pub(crate) fn check(&self) -> Result<(), Error> {
        match self.left {
            Some(0) => Err(Error::from_raw_os_error(FILE_TOO_LARGE)),
            _ => Ok(()),
        }
    }

    /// Counts bytes that the file took.
    pub(crate) fn take(&mut self, count: usize) {
        let count = u64::try_from(count).unwrap_or(u64::MAX);
        self.left = self.left.map(|left| left.saturating_sub(count));
    }
}

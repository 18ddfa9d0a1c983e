//! The history that a site in memory keeps.
ghost use Rattle.std.specs.Prelude.{◌≡◌, Some, [], IfOk, false, true};

use play_outside::{MemSource, Source};
use std::alloc::{AllocError, Global};

/// The most bytes that a read of the history gives.
const PIECE: usize = 4_096;

/// The bytes of a history, if there is one, and the numbers of the reads of it that fail.
#[derive(Drop)]
pub(crate) struct KeptHistory {
    is_kept: bool,
    bytes: Vec<u8>,
    fails: Vec<u64>,
}

impl KeptHistory {
    /// Returns no history.
    pub(crate) fn none(alloc: Global) -> KeptHistory
        ensures kept { result.is_kept ≡ false }
        ensures bytes { result.bytes.items ≡ [] }
    {
        KeptHistory {
            is_kept: false,
            bytes: Vec::new(alloc),
            fails: Vec::new(alloc),
        }
    }

    /// Returns a history of these bytes. The reads of it whose numbers, counted from 1, are in `fails` return `Failed`.
    pub(crate) fn of(bytes: Vec<u8>, fails: Vec<u64>) -> KeptHistory
        ensures kept { result.is_kept ≡ true }
        ensures bytes { result.bytes ≡ bytes }
        ensures fails { result.fails ≡ fails }
    {
        KeptHistory {
            is_kept: true,
            bytes,
            fails,
        }
    }

    /// Returns whether there is a history.
    pub(crate) fn is_kept(&self) -> bool
        ensures { result ≡ self.now.is_kept }
    {
        self.is_kept
    }

    /// Returns a source of the bytes.
    pub(crate) fn source(&self, alloc: Global) -> Result<MemSource, AllocError>
        ensures { IfOk result (λ source. ⟦<MemSource as Source>⟧.state source ≡ record { left = Some self.now.bytes.items; faults = 0 }) }
    {
        let bytes = Vec::from_slice(alloc, self.bytes.as_slice())?;
        let fails = Vec::from_slice(alloc, self.fails.as_slice())?;
        Ok(MemSource::new(bytes, PIECE, fails))
    }
}

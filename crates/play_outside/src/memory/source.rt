//! A source in memory.
ghost use Rattle.std.specs.Prelude.{◌≡◌, ◌<◌, Some};

use super::planned_faults::PlannedFaults;
use super::unread::Unread;
use crate::{ReadStep, Source};

/// Bytes in memory, given in pieces from the first to the last. It exposes what is left.
#[derive(Drop)]
pub struct MemSource {
    unread: Unread,
    piece: usize,
    planned: PlannedFaults,
    ghost some: { 0 < piece },
}

impl MemSource {
    /// Creates a source of these bytes, which gives at most `piece` of them a read. The reads whose numbers, counted
    /// from 1, are in `fails` return `Failed`.
    pub fn new(bytes: Vec<u8>, piece: usize, fails: Vec<u64>) -> MemSource
        requires { 0 < piece }
        ensures { ⟦<MemSource as Source>⟧.state result ≡ record { left = Some bytes.items; faults = 0 } }
    {
        MemSource {
            unread: Unread::new(bytes),
            piece,
            planned: PlannedFaults::new(fails),
        }
    }

    /// Returns the bytes that are left.
    pub fn left(&self) -> &[u8]
        ensures { (⟦<MemSource as Source>⟧.state self.now).left ≡ Some result.now }
    {
        self.unread.as_slice()
    }

    /// Returns how often a read has failed.
    pub fn faults(&self) -> u64
        ensures { result ≡ (⟦<MemSource as Source>⟧.state self.now).faults }
    {
        self.planned.count
    }
}

impl Source for MemSource {
    ghost state = { λ s. record { left = Some s.unread.left; faults = s.planned.count } };

    fn read(&mut self, buf: &mut [u8]) -> ReadStep {
        if self.planned.fails_now() {
            self.planned.raise();
            return ReadStep::Failed;
        }
        match self.unread.give(buf, self.piece) {
            0 => ReadStep::End,
            count => ReadStep::Got(count),
        }
    }
}

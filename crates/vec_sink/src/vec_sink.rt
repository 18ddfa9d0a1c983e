//! A sink in memory.
ghost use Rattle.std.specs.Prelude.{◌≡◌, ◌==◌, Some, None, [], if◌then◌else◌};

use play_outside::{Sink, WriteStep};
use std::alloc::Global;

/// Keeps what is written to it in a vector. A write fails if memory runs out, and then so does each later one.
#[derive(Drop)]
pub struct VecSink {
    /// The bytes that were taken, in order.
    pub taken: Vec<u8>,
    /// How many writes failed.
    pub faults: u64,
}

impl VecSink {
    /// Returns a sink that has taken nothing, without allocating.
    pub fn new(alloc: Global) -> VecSink
        ensures taken { result.taken.items ≡ [] }
        ensures faults { result.faults ≡ 0 }
    {
        VecSink {
            taken: Vec::new(alloc),
            faults: 0,
        }
    }
}

impl Sink for VecSink {
    ghost state = { λ s. record { taken = Some s.taken.items; faults = s.faults; mark = 0; at_fault = if s.faults == 0 then None else Some s.taken.items; reading = None; idle = 0 } };

    fn write(&mut self, piece: &[u8]) -> WriteStep {
        if self.faults > 0 || self.taken.extend_from_slice(piece).is_err() {
            self.faults = self.faults.saturating_add(1);
            return WriteStep::Failed;
        }
        WriteStep::Took(piece.len())
    }
}

//! A sink in memory.
ghost use Rattle.std.specs.Prelude.{◌≡◌, ◌<◌, ◌≤◌, Some, None, [], IfOk, IfSome, option_map, take, vec_len};
ghost use Rattle.std.proofs.Props.{props};

use super::pieces::push_all_reserved;
use super::planned_faults::PlannedFaults;
use crate::{Rest, Sink, WriteStep};
use std::alloc::{AllocError, Global};

/// A sink that takes bytes into room that it has from its creation, and exposes them.
#[derive(Drop)]
pub struct MemSink {
    pub(crate) taken: Vec<u8>,
    piece: usize,
    pub(crate) planned: PlannedFaults,
    mark: u64,
    /// How many bytes it had taken when a write last failed.
    at_fault: Option<usize>,
    ghost some: { 0 < piece },
    ghost passed: { IfSome at_fault (λ count. count ≤ vec_len taken) } by { Prim.hlevel props },
}

impl MemSink {
    ghost use Rattle.play_outside.specs.memory.Sink.{room_left};
    ghost use Rattle.play_outside.specs.SinkState.{after_fault};

    /// Creates a sink with room for `room` bytes, which takes at most `piece` of them a write. The writes whose numbers,
    /// counted from 1, are in `fails` return `Failed`, and so does each write that finds the room full.
    pub fn new(
        alloc: Global,
        mark: u64,
        room: usize,
        piece: usize,
        fails: Vec<u64>,
    ) -> Result<MemSink, AllocError>
        requires { 0 < piece }
        ensures fresh { IfOk result (λ sink. ⟦<MemSink as Sink>⟧.state sink ≡ record { taken = Some []; faults = 0; mark = mark; at_fault = None; reading = None; idle = 0 }) }
        ensures room { IfOk result (λ sink. room_left sink ≡ room) }
    {
        let taken = Vec::with_capacity(alloc, room)?;
        Ok(MemSink {
            taken,
            piece,
            planned: PlannedFaults::new(fails),
            mark,
            at_fault: None,
        })
    }

    /// Returns the bytes that were taken, in order.
    pub fn taken(&self) -> &[u8]
        ensures { (⟦<MemSink as Sink>⟧.state self.now).taken ≡ Some result.now }
    {
        self.taken.as_slice()
    }

    /// Returns how many more bytes there is room for.
    pub fn room(&self) -> usize
        ensures { result ≡ room_left self.now }
    {
        self.taken.capacity() - self.taken.len()
    }

    /// Returns how often a write has failed.
    pub fn faults(&self) -> u64
        ensures { result ≡ (⟦<MemSink as Sink>⟧.state self.now).faults }
    {
        self.planned.count
    }

    /// Counts a write, and fails it.
    pub(crate) fn fail_call(&mut self) -> WriteStep
        ensures step { result ≡ WriteStep.Failed }
        ensures state { ⟦<MemSink as Sink>⟧.state self.new ≡ after_fault (⟦<MemSink as Sink>⟧.state self.old) }
    {
        let _planned = self.planned.fails_now();
        self.fail()
    }

    /// Fails a write that was counted.
    fn fail(&mut self) -> WriteStep
        ensures step { result ≡ WriteStep.Failed }
        ensures state { ⟦<MemSink as Sink>⟧.state self.new ≡ after_fault (⟦<MemSink as Sink>⟧.state self.old) }
    {
        self.planned.raise();
        self.at_fault = Some(self.taken.len());
        WriteStep::Failed
    }
}

impl Sink for MemSink {
    ghost state = { λ s. record { taken = Some s.taken.items; faults = s.planned.count; mark = s.mark; at_fault = option_map (λ count. take count s.taken.items) s.at_fault; reading = None; idle = 0 } };

    fn write(&mut self, piece: &[u8]) -> WriteStep {
        let room = self.room();
        if self.planned.fails_now() || room == 0 {
            return self.fail();
        }
        let count = piece.len().min(room).min(self.piece);
        push_all_reserved(&mut self.taken, &piece[..count]);
        WriteStep::Took(count)
    }
}

impl Rest for MemSink {
    fn rest(&mut self) {}
}

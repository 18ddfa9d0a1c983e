//! A link in memory.
ghost use Rattle.std.specs.Prelude.{◌≡◌, ◌<◌, Some, None, [], IfOk, IfSome, length};
ghost use Rattle.play_outside.specs.Reading.{unread};

use super::unread::Unread;
use crate::{Link, LinkStep, Look, MemSink, Sink, WriteStep};
use std::alloc::{AllocError, Global};

/// What a link in memory is to do. Its calls, reads and writes, are counted together from 1.
#[derive(Drop)]
pub struct LinkPlan {
    /// The bytes that reads give, before they find the end.
    pub input: Vec<u8>,
    /// The most bytes that a call gives or takes.
    pub piece: usize,
    /// How many written bytes there is room for.
    pub room: usize,
    /// How many reads there is room for.
    pub looks: usize,
    /// The numbers of the calls that return `Failed`.
    pub fails: Vec<u64>,
    /// The numbers of the calls that return `Again`, if they are reads.
    pub waits: Vec<u64>,
}

/// A link that gives bytes from memory, and takes bytes into room that it has from its creation. It exposes all its
/// calls that do not fail.
#[derive(Drop)]
pub struct MemLink {
    input: Unread,
    piece: usize,
    out: MemSink,
    looks: Vec<Look>,
    ended: bool,
    waits: Vec<u64>,
    idle: u64,
    ghost some: { 0 < piece },
}

impl MemLink {
    ghost use Rattle.play_outside.specs.Link.{after_failed_read};
    ghost use Rattle.play_outside.specs.SinkState.{after_fault};
    ghost use Rattle.play_outside.specs.memory.Link.{input_left, room_left, looks_left};

    /// Creates a link that does what is planned. A write that finds no room returns `Failed` too, and so does each read
    /// that finds none.
    pub fn new(alloc: Global, mark: u64, plan: LinkPlan) -> Result<MemLink, AllocError>
        requires { 0 < plan.piece }
        ensures fresh { IfOk result (λ link. ⟦<MemLink as Sink>⟧.state link ≡ record { taken = Some []; faults = 0; mark = mark; at_fault = None; reading = Some unread; idle = 0 }) }
        ensures input { IfOk result (λ link. input_left link ≡ plan.input.items) }
        ensures room { IfOk result (λ link. room_left link ≡ plan.room) }
        ensures looks { IfOk result (λ link. looks_left link ≡ plan.looks) }
    {
        let LinkPlan {
            input,
            piece,
            room,
            looks,
            fails,
            waits,
        } = plan;
        let out = MemSink::new(alloc, mark, room, piece, fails)?;
        let looks = Vec::with_capacity(alloc, looks)?;
        Ok(MemLink {
            input: Unread::new(input),
            piece,
            out,
            looks,
            ended: false,
            waits,
            idle: 0,
        })
    }

    /// Returns the bytes that reads have left to give.
    pub fn left(&self) -> &[u8]
        ensures { result.now ≡ input_left self.now }
    {
        self.input.as_slice()
    }

    /// Returns the bytes that were taken, in order.
    pub fn taken(&self) -> &[u8]
        ensures { (⟦<MemLink as Sink>⟧.state self.now).taken ≡ Some result.now }
    {
        self.out.taken()
    }

    /// Returns the reads that did not fail, in order.
    pub fn looks(&self) -> &[Look]
        ensures { IfSome (⟦<MemLink as Sink>⟧.state self.now).reading (λ reading. reading.looks ≡ result.now) }
    {
        self.looks.as_slice()
    }

    /// Returns how often a call has failed.
    pub fn faults(&self) -> u64
        ensures { result ≡ (⟦<MemLink as Sink>⟧.state self.now).faults }
    {
        self.out.faults()
    }

    /// Returns how often a read has found nothing yet.
    pub fn idle(&self) -> u64
        ensures { result ≡ (⟦<MemLink as Sink>⟧.state self.now).idle }
    {
        self.idle
    }

    /// Counts a write, and fails it.
    pub(crate) fn fail_write(&mut self) -> WriteStep
        ensures step { result ≡ WriteStep.Failed }
        ensures state { ⟦<MemLink as Sink>⟧.state self.new ≡ after_fault (⟦<MemLink as Sink>⟧.state self.old) }
    {
        self.out.fail_call()
    }

    /// Counts a read, and fails it.
    pub(crate) fn fail_read(&mut self) -> LinkStep
        ensures step { result ≡ LinkStep.Failed }
        ensures state { ⟦<MemLink as Sink>⟧.state self.new ≡ after_failed_read (⟦<MemLink as Sink>⟧.state self.old) }
        ensures left { input_left self.new ≡ input_left self.old }
    {
        let _planned = self.out.planned.fails_now();
        self.out.planned.raise();
        LinkStep::Failed
    }
}

impl Sink for MemLink {
    ghost state = { λ l. record (⟦<MemSink as Sink>⟧.state l.out) { reading = Some (record { bytes = l.input.given; looks = l.looks.items; ended = l.ended }); idle = l.idle } };

    fn write(&mut self, piece: &[u8]) -> WriteStep {
        self.out.write(piece)
    }
}

impl Link for MemLink {
    ghost use Rattle.play_outside.specs.Link.{LinkReads};
    ghost use Rattle.play_outside.specs.memory.Link.{input_left, LeavesInput};

    fn read(&mut self, buf: &mut [u8]) -> LinkStep
        requires { 0 < length buf.old }
        ensures reads { LinkReads result buf.new (⟦<MemLink as Sink>⟧.state self.old) (⟦<MemLink as Sink>⟧.state self.new) }
        ensures left { LeavesInput result buf.new (input_left self.old) (input_left self.new) }
    {
        if self.out.planned.fails_now() || self.looks.len() == self.looks.capacity() {
            self.out.planned.raise();
            return LinkStep::Failed;
        }
        self.looks.push_reserved(Look {
            taken: self.out.taken.len(),
            read: self.input.given(),
        });
        if self.waits.as_slice().contains(&self.out.planned.calls) {
            self.idle = self.idle.saturating_add(1);
            return LinkStep::Again;
        }
        match self.input.give(buf, self.piece) {
            0 => {
                self.ended = true;
                LinkStep::End
            }
            count => LinkStep::Got(count),
        }
    }
}

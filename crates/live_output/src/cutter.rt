//! The side that is written to.
ghost use Rattle.std.specs.Prelude.{◌<◌};

use crate::frame::Frame;
use rtrb::{Consumer, Producer};
use std::alloc::Global;

/// Gathers the bytes of an output into frames of one size. It takes all that is written, and never waits: a frame that
/// nobody reads, or for which there is no empty buffer, is dropped whole and counted.
#[derive(Drop)]
pub struct FrameCutter {
    pub(crate) alloc: Global,
    pub(crate) size: usize,
    /// How many bytes of the next frame came.
    pub(crate) at: usize,
    /// These bytes, if the frame is to be handed on.
    pub(crate) filling: Option<Vec<u8>>,
    /// Empty buffers. The one that came back last is filled next, so that as few as possible are used.
    pub(crate) free: Vec<Vec<u8>>,
    pub(crate) out: Producer<Frame>,
    pub(crate) back: Consumer<Vec<u8>>,
    pub(crate) dropped: u64,
    ghost within: { at < size },
}

impl FrameCutter {
    ghost use Rattle.std.specs.Prelude.{◌≡◌, ◌<◌, ◌≤◌, ◌+◌, ◌-◌, ◌^◌, ◌⊎◌, ◌∷◌, ◌++◌, [], ℕ, List, None, IfSome, IsSomeAnd, MatchBool, length, min};
    ghost use Rattle.rtrb.specs.Ring.{SameConsumer, SameProducer, sent};
    ghost use Rattle.live_output.specs.Cut.{IsCut};

    /// Takes a piece of the bytes of frames. Frames that begin in it are dropped if `is_read` is false.
    pub fn write(&mut self, piece: &[u8], is_read: bool)
        ensures cut { (written : List ℕ) → IsCut written self.old → IsCut (written ++ piece.now) self.new }
        ensures rings { SameProducer self.old.out self.new.out × SameConsumer self.old.back self.new.back }
    {
        let mut from = 0;
        while from < piece.len() {
            let count = (self.size - self.at).min(piece.len() - from);
            self.add(&piece[from..from + count], is_read);
            from += count;
        }
    }

    /// Returns how many frames were dropped.
    pub fn dropped(&self) -> u64
        ensures { result ≡ self.now.dropped }
    {
        self.dropped
    }

    /// Adds bytes of one frame, and ends the frame if they complete it.
    fn add(&mut self, part: &[u8], is_read: bool)
        requires some { 0 < length part.now }
        requires fits { self.old.at + length part.now ≤ self.old.size }
        ensures cut { (written : List ℕ) → IsCut written self.old → IsCut (written ++ part.now) self.new }
        ensures size { self.new.size ≡ self.old.size }
        ensures rings { SameProducer self.old.out self.new.out × SameConsumer self.old.back self.new.back }
    {
        self.begin(is_read);
        self.keep(part);
        let end = self.at + part.len();
        if end < self.size {
            self.at = end;
        } else {
            self.at = 0;
            self.hand_on();
        }
    }

    /// Begins a frame if none has begun. It gets an empty buffer if `is_read` is true and there is one.
    fn begin(&mut self, is_read: bool)
        ensures cut { (written : List ℕ) → IsCut written self.old → IsCut written self.new }
        ensures size { (self.new.size ≡ self.old.size) × (self.new.at ≡ self.old.at) }
        ensures rings { SameProducer self.old.out self.new.out × SameConsumer self.old.back self.new.back }
    {
        if self.at > 0 {
            return;
        }
        self.filling = None;
        if !is_read {
            return;
        }
        self.collect();
        if let Some(mut buffer) = self.free.pop() {
            buffer.clear();
            self.filling = Some(buffer);
        }
    }

    /// Collects the buffers that came back.
    fn collect(&mut self)
        ensures rest { self.new ≡ record self.old { free = self.new.free; back = self.new.back } }
        ensures ring { SameConsumer self.old.back self.new.back }
    {
        while self.free.len() < self.free.capacity() {
            match self.back.pop() {
                Ok(buffer) => self.free.push_reserved(buffer),
                Err(_) => return,
            }
        }
    }

    /// Adds bytes to a frame that is to be handed on. If memory runs out, the frame will be dropped.
    fn keep(&mut self, part: &[u8])
        ensures kept { IfSome self.new.filling (λ bytes. IsSomeAnd self.old.filling (λ before. bytes.items ≡ before.items ++ part.now)) }
        ensures rest { self.new ≡ record self.old { filling = self.new.filling } }
    {
        let Some(filling) = &mut self.filling else {
            return;
        };
        if filling.extend_from_slice(part).is_err() {
            self.filling = None;
        }
    }

    /// Hands on a complete frame, or counts that it was dropped.
    fn hand_on(&mut self)
        ensures handed { IsSomeAnd self.old.filling (λ bytes. sent self.new.out ≡ sent self.old.out ++ bytes.items ∷ [])
            × (self.new.dropped ≡ self.old.dropped)
            ⊎ (sent self.new.out ≡ sent self.old.out) × (self.new.dropped ≡ min (self.old.dropped + 1) (2 ^ 64 - 1)) }
        ensures rest { (self.new.filling ≡ None) × (self.new.at ≡ self.old.at) × (self.new.size ≡ self.old.size) }
        ensures rings { SameProducer self.old.out self.new.out × SameConsumer self.old.back self.new.back }
    {
        if !self.push() {
            self.dropped = self.dropped.saturating_add(1);
        }
    }

    /// Pushes the complete frame if it has a buffer and the queue has a slot. Returns whether it did.
    fn push(&mut self) -> bool
        ensures pushed { MatchBool result (IsSomeAnd self.old.filling (λ bytes. sent self.new.out ≡ sent self.old.out ++ bytes.items ∷ []))
            (sent self.new.out ≡ sent self.old.out) }
        ensures rest { (self.new.filling ≡ None) × (self.new.at ≡ self.old.at) × (self.new.size ≡ self.old.size) × (self.new.dropped ≡ self.old.dropped) }
        ensures rings { SameProducer self.old.out self.new.out × SameConsumer self.old.back self.new.back }
    {
        let Some(bytes) = self.filling.take() else {
            return false;
        };
        match Frame::new(self.alloc, bytes) {
            Ok(frame) => self.out.push(frame).is_ok(),
            Err(bytes) => {
                let _ = self.free.push(bytes);
                false
            }
        }
    }
}

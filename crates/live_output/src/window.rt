//! The frames that a reader may still get.
ghost use Rattle.std.specs.Prelude.{◌≡◌, ◌≢◌, ◌<◌, ◌≤◌, ◌+◌, ◌^◌, ◌⊎◌, [], true, length};
ghost use Rattle.std.specs.VecDeque.{deque_capacity, deque_len};
ghost use mathlib.Core.List.{IsPrefix};
ghost use Rattle.rtrb.specs.Ring.{SameConsumer, SameProducer, received};
ghost use Rattle.live_output.specs.Last.{AreLast};

use crate::frame::Frame;
use rtrb::{Consumer, Producer};
use std::collections::VecDeque;

/// The frames of an output that a reader may still get: all that came but for the first `gone`.
#[derive(Drop)]
pub struct FrameWindow {
    pub(crate) inbox: Consumer<Frame>,
    pub(crate) back: Producer<Vec<u8>>,
    pub(crate) frames: VecDeque<Frame>,
    /// How many frames that came were released.
    pub(crate) gone: u64,
    /// How many frames may wait.
    pub(crate) waiting: usize,
    ghost last: { AreLast frames.items gone (received inbox) },
    ghost counted: { gone + deque_len frames < 2 ^ 64 },
}

impl FrameWindow {
    /// Takes a frame that came, if one did, and releases the oldest one if there are more than may wait. Returns
    /// whether a frame came.
    pub(crate) fn take(&mut self) -> bool
        ensures more { IsPrefix (received self.old.inbox) (received self.new.inbox) }
        ensures rings { SameConsumer self.old.inbox self.new.inbox × SameProducer self.old.back self.new.back }
        ensures waiting { self.new.waiting ≡ self.old.waiting }
        ensures gone { (self.new.gone ≡ self.old.gone) ⊎ (self.new.gone + self.new.waiting ≤ length (received self.new.inbox)) }
    {
        if !self.has_place() {
            return false;
        }
        let Ok(frame) = self.inbox.pop() else {
            return false;
        };
        self.frames.push_back_reserved(frame);
        if self.frames.len() > self.waiting {
            self.let_go();
        }
        true
    }

    /// Returns how many frames came.
    pub(crate) fn count(&self) -> u64
        ensures { result ≡ length (received self.now.inbox) }
    {
        self.gone + self.frames.len() as u64
    }

    /// Releases the frames before number `number`, counted from 0.
    pub(crate) fn let_go_before(&mut self, number: u64)
        ensures gone { (number ≤ self.new.gone) ⊎ (self.new.frames.items ≡ []) }
        ensures only { (self.new.gone ≡ self.old.gone) ⊎ (self.new.gone ≤ number) }
        ensures same { (received self.new.inbox ≡ received self.old.inbox) × (self.new.waiting ≡ self.old.waiting) }
        ensures rings { SameConsumer self.old.inbox self.new.inbox × SameProducer self.old.back self.new.back }
    {
        while self.gone < number {
            if !self.let_go() {
                return;
            }
        }
    }

    /// Returns whether one more frame can be counted and stored.
    fn has_place(&mut self) -> bool
        ensures place { result ≡ true → deque_len self.new.frames < deque_capacity self.new.frames }
        ensures counted { result ≡ true → self.new.gone + deque_len self.new.frames + 1 < 2 ^ 64 }
        ensures same { (self.new.inbox ≡ self.old.inbox) × (self.new.back ≡ self.old.back) × (self.new.gone ≡ self.old.gone) × (self.new.waiting ≡ self.old.waiting) }
        ensures frames { self.new.frames.items ≡ self.old.frames.items }
    {
        self.count() < u64::MAX && self.frames.try_reserve(1).is_ok()
    }

    /// Releases the oldest frame, if there is one. Its buffer is sent back unless a reader still has the frame. Returns
    /// whether there was one.
    fn let_go(&mut self) -> bool
        ensures gone { result ≡ true → self.new.gone ≡ self.old.gone + 1 }
        ensures none { result ≢ true → (self.new.gone ≡ self.old.gone) × (self.new.frames.items ≡ []) }
        ensures same { (received self.new.inbox ≡ received self.old.inbox) × (self.new.waiting ≡ self.old.waiting) }
        ensures rings { SameConsumer self.old.inbox self.new.inbox × SameProducer self.old.back self.new.back }
    {
        let Some(frame) = self.frames.pop_front() else {
            return false;
        };
        self.gone += 1;
        self.give_back(Some(frame));
        true
    }

    /// Sends the buffer of a frame back, if there is a frame and this was its last owner.
    pub(crate) fn give_back(&mut self, frame: Option<Frame>)
        ensures same { self.new ≡ record self.old { back = self.new.back } }
        ensures rings { SameConsumer self.old.inbox self.new.inbox × SameProducer self.old.back self.new.back }
    {
        let Some(frame) = frame else {
            return;
        };
        if let Some(buffer) = frame.into_buffer() {
            let _ = self.back.push(buffer);
        }
    }
}

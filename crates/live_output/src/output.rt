//! The side of the readers.
ghost use Rattle.std.specs.Prelude.{◌≤◌};
ghost use Rattle.std.specs.Vec.{vec_capacity};

use crate::limits::MAX_READERS;
use crate::reader::{Progress, Reader};
use crate::window::FrameWindow;
use std::alloc::{AllocError, Global};
use std::io::Write;

/// The frames of an output that a reader may still get, and its readers.
#[derive(Drop)]
pub struct LiveOutput<W> {
    pub(crate) window: FrameWindow,
    pub(crate) readers: Vec<Reader<W>>,
    /// The most readers.
    pub(crate) places: usize,
    ghost room: { places ≤ vec_capacity readers },
}

impl<W: Write + Drop> LiveOutput<W> {
    ghost use Rattle.std.specs.Prelude.{◌≡◌, ◌≢◌, ◌<◌, ◌≤◌, ◌⊎◌, [], ℕ, All, Any, IfErr, IfOk, OnErr, OnOk, length, min, slice_index_or};
    ghost use Rattle.std.specs.List.{remove};
    ghost use Rattle.std.specs.Vec.{vec_len};
    ghost use Rattle.rtrb.specs.Ring.{SameConsumer, SameProducer, received};
    ghost use Rattle.live_output.specs.declared.reader.Reader.{Reader};
    ghost use Rattle.live_output.specs.Got.{HasGot};
    ghost use Rattle.live_output.specs.Served.{AreServed, Comes};
    ghost use Rattle.live_output.specs.Wanted.{HoldsWanted, KeepsWanted};

    /// Returns an output of these frames without a reader. It may have `places` readers, but at most [`MAX_READERS`].
    pub fn new(
        alloc: Global,
        window: FrameWindow,
        places: usize,
    ) -> Result<LiveOutput<W>, AllocError>
        ensures served { IfOk result (AreServed W.contents) }
        ensures window { IfOk result (λ output. output.window ≡ window) }
        ensures none { IfOk result (λ output. output.readers.items ≡ []) }
        ensures places { IfOk result (λ output. output.places ≡ min places MAX_READERS) }
        ensures kept { IfOk result KeepsWanted }
    {
        let places = places.min(MAX_READERS);
        Ok(LiveOutput {
            window,
            readers: Vec::with_capacity(alloc, places)?,
            places,
        })
    }

    /// Takes a frame that came, if one did. Releases the oldest frame if there are more than may wait, and each frame
    /// that no reader will begin. Returns whether a frame came.
    pub fn take(&mut self) -> bool
        ensures served { AreServed W.contents self.old → AreServed W.contents self.new }
        ensures rings { SameConsumer self.old.window.inbox self.new.window.inbox × SameProducer self.old.window.back self.new.window.back }
        ensures readers { self.new.readers ≡ self.old.readers }
        ensures places { self.new.places ≡ self.old.places }
        ensures held { HoldsWanted self.new }
        ensures kept { KeepsWanted self.old → KeepsWanted self.new }
    {
        let came = self.window.take();
        self.let_go();
        came
    }

    /// Adds a reader, which gets frames from the next one to come on. If the output has as many readers as it may have,
    /// it hands `to` back and changes nothing.
    pub fn add(&mut self, to: W) -> Result<(), W>
        ensures served { AreServed W.contents self.old → AreServed W.contents self.new }
        ensures rings { SameConsumer self.old.window.inbox self.new.window.inbox × SameProducer self.old.window.back self.new.window.back }
        ensures added { OnOk result (Comes to self.old self.new) }
        ensures handed_back { IfErr result (λ back. (back ≡ to) × (self.new.readers.items ≡ self.old.readers.items)) }
        ensures place { OnOk result (vec_len self.old.readers < self.old.places) }
        ensures full { OnErr result (self.old.places ≤ vec_len self.old.readers) }
        ensures unchanged { OnErr result (self.new ≡ self.old) }
        ensures places { self.new.places ≡ self.old.places }
        ensures held { HoldsWanted self.old → HoldsWanted self.new }
        ensures kept { KeepsWanted self.old → KeepsWanted self.new }
    {
        if self.readers.len() >= self.places {
            return Err(to);
        }
        let first = self.window.count();
        self.readers.push_reserved(Reader::new(to, first));
        Ok(())
    }

    /// Returns how many readers there are.
    pub fn count(&self) -> usize
        ensures { result ≡ vec_len self.now.readers }
    {
        self.readers.len()
    }

    /// Returns the reader at place `at`.
    pub fn reader(&self, at: usize) -> &Reader<W>
        requires { at < vec_len self.now.readers }
        ensures { result.now ≡ slice_index_or self.now.readers.items at result.now }
    {
        &self.readers[at]
    }

    /// Writes to the reader at place `at` what it takes without a wait, at most to the end of one frame.
    pub fn write_to(&mut self, at: usize) -> Progress
        requires { at < vec_len self.old.readers }
        ensures served { AreServed W.contents self.old → AreServed W.contents self.new }
        ensures rings { SameConsumer self.old.window.inbox self.new.window.inbox × SameProducer self.old.window.back self.new.window.back }
        ensures others { (k : ℕ) (d : Reader W) → k ≢ at → slice_index_or self.new.readers.items k d ≡ slice_index_or self.old.readers.items k d }
        ensures count { vec_len self.new.readers ≡ vec_len self.old.readers }
        ensures places { self.new.places ≡ self.old.places }
        ensures held { HoldsWanted self.new }
        ensures kept { KeepsWanted self.old → KeepsWanted self.new }
    {
        let (progress, done) = self.readers[at].write(&self.window.frames, self.window.gone);
        self.window.give_back(done);
        self.let_go();
        progress
    }

    /// Removes the reader at place `at` and returns it. The readers after it move down by one place, and are otherwise
    /// unchanged. [`Self::take_back`] takes back the buffer of the frame that it had begun.
    pub fn remove(&mut self, at: usize) -> Reader<W>
        requires { at < vec_len self.old.readers }
        ensures served { AreServed W.contents self.old → AreServed W.contents self.new }
        ensures rings { SameConsumer self.old.window.inbox self.new.window.inbox × SameProducer self.old.window.back self.new.window.back }
        ensures reader { result ≡ slice_index_or self.old.readers.items at result }
        ensures others { self.new.readers.items ≡ remove self.old.readers.items at }
        ensures got { AreServed W.contents self.old → HasGot W.contents (received self.old.window.inbox) result }
        ensures places { self.new.places ≡ self.old.places }
        ensures held { HoldsWanted self.new }
        ensures kept { KeepsWanted self.old → KeepsWanted self.new }
    {
        let reader = self.readers.remove(at);
        self.let_go();
        reader
    }

    /// Takes back the buffer of the frame that a removed reader had begun, and returns the stream of the reader.
    pub fn take_back(&mut self, reader: Reader<W>) -> W
        ensures value { result ≡ reader.to }
        ensures same { self.new ≡ record self.old { window = record self.old.window { back = self.new.window.back } } }
        ensures rings { SameConsumer self.old.window.inbox self.new.window.inbox × SameProducer self.old.window.back self.new.window.back }
    {
        let Reader { to, under_way, .. } = reader;
        self.window.give_back(under_way);
        to
    }

    /// Releases the frames that every reader has begun or skipped.
    fn let_go(&mut self)
        ensures held { HoldsWanted self.new }
        ensures kept { KeepsWanted self.old → KeepsWanted self.new }
        ensures rest { (self.new.readers ≡ self.old.readers) × (self.new.places ≡ self.old.places) × (received self.new.window.inbox ≡ received self.old.window.inbox) }
        ensures rings { SameConsumer self.old.window.inbox self.new.window.inbox × SameProducer self.old.window.back self.new.window.back }
    {
        let first = self.first_wanted();
        self.window.let_go_before(first);
    }

    /// Returns the number of the first frame that some reader has not begun, or of the next one to come if there is no
    /// such frame.
    fn first_wanted(&self) -> u64
        ensures all { All (λ reader. result ≤ reader.next) self.now.readers.items }
        ensures one { (result ≡ length (received self.now.window.inbox)) ⊎ Any (λ reader. reader.next ≤ result) self.now.readers.items }
    {
        let mut first = self.window.count();
        for reader in &self.readers {
            first = first.min(reader.next);
        }
        first
    }
}

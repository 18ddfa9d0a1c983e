//! A reader, and its position in the frames.
ghost use Rattle.std.specs.Prelude.{◌≡◌, ◌<◌, ◌≤◌, length, option_to_list, IfSome, slice_index_or};
ghost use Rattle.std.specs.List.{concat};

use crate::frame::Frame;
use std::collections::VecDeque;
use std::io::{ErrorKind, Write};
use std::snapshot::Snapshot;

/// The result of a write to a reader.
#[derive(Clone, Copy, Debug, PartialEq, Eq)]
pub enum Progress {
    /// It took bytes.
    Took,
    /// It has all frames that came.
    Idle,
    /// It takes nothing at the moment.
    Full,
    /// It has left.
    Left,
}

/// A reader of an output.
#[derive(Drop)]
pub struct Reader<W> {
    pub(crate) to: W,
    /// The stream as it was when the reader came.
    pub(crate) came: Snapshot<W>,
    /// How many frames came to the output before it.
    pub(crate) first: u64,
    /// The number of the next frame that it may begin, counted from 0.
    pub(crate) next: u64,
    /// How many frames were skipped because it was too slow for them.
    pub(crate) skipped: u64,
    /// The frame that it has begun, if it is in one.
    pub(crate) under_way: Option<Frame>,
    /// How many bytes of that frame it has.
    pub(crate) at: usize,
    ghost within: { at ≤ length (concat (option_to_list under_way)) },
}

impl<W: Write> Reader<W> {
    ghost use Rattle.std.specs.Prelude.{◌≡◌, ◌≤◌, ℕ, List, length};
    ghost use Rattle.live_output.specs.Last.{AreLast};
    ghost use Rattle.live_output.specs.Got.{HasGot};

    /// Returns a reader that gets frames from number `first` on.
    pub(crate) fn new(to: W, first: u64) -> Reader<W>
        ensures fresh { (result.came.value ≡ to) × (result.to ≡ to) × (result.first ≡ first) }
        ensures got { (frames : List (List ℕ)) → first ≤ length frames → HasGot W.contents frames result }
    {
        let came = Snapshot::of(&to);
        Reader {
            to,
            came,
            first,
            next: first,
            skipped: 0,
            under_way: None,
            at: 0,
        }
    }

    /// Writes a prefix of what is left of the frame that the reader has begun, or of the next one that waits. Returns
    /// the result, and the frame if the reader now has all of it. `window` has all frames that came but for the first
    /// `gone`.
    pub(crate) fn write(&mut self, window: &VecDeque<Frame>, gone: u64) -> (Progress, Option<Frame>)
        ensures got { (frames : List (List ℕ)) → AreLast window.now.items gone frames → HasGot W.contents frames self.old → HasGot W.contents frames self.new }
        ensures next { self.old.next ≤ self.new.next }
    {
        self.begin(window, gone);
        let progress = self.go_on();
        (progress, self.end())
    }

    /// Returns how many frames were skipped because the reader was too slow for them.
    pub fn skipped(&self) -> u64
        ensures { result ≡ self.now.skipped }
    {
        self.skipped
    }

    /// Returns the stream of the reader.
    pub fn into_inner(self) -> W
        ensures { result ≡ self.to }
    {
        self.to
    }

    /// Begins the next frame if the reader is in none and one waits. `window` has all frames that came but for the
    /// first `gone`. Frames that it no longer has are skipped and counted.
    fn begin(&mut self, window: &VecDeque<Frame>, gone: u64)
        ensures got { (frames : List (List ℕ)) → AreLast window.now.items gone frames → HasGot W.contents frames self.old → HasGot W.contents frames self.new }
        ensures next { self.old.next ≤ self.new.next }
    {
        if self.under_way.is_some() {
            return;
        }
        let number = self.next.max(gone);
        let (Some(next), Some(frame)) = (number.checked_add(1), frame_at(window, number - gone))
        else {
            return;
        };
        self.skipped = self.skipped.saturating_add(number - self.next);
        self.at = 0;
        self.next = next;
        self.under_way = Some(frame);
    }

    /// Writes a prefix of what is left of the frame that the reader has begun.
    fn go_on(&mut self) -> Progress
        ensures got { (frames : List (List ℕ)) → HasGot W.contents frames self.old → HasGot W.contents frames self.new }
        ensures next { self.old.next ≤ self.new.next }
    {
        let Some(frame) = &self.under_way else {
            return Progress::Idle;
        };
        match self.to.write(&frame.as_slice()[self.at..]) {
            Ok(0) => Progress::Full,
            Ok(count) => {
                self.at += count;
                Progress::Took
            }
            Err(error) => match error.kind() {
                ErrorKind::WouldBlock | ErrorKind::Interrupted => Progress::Full,
                _ => Progress::Left,
            },
        }
    }

    /// Ends the frame that the reader has begun if it has all of it, and returns that frame.
    fn end(&mut self) -> Option<Frame>
        ensures got { (frames : List (List ℕ)) → HasGot W.contents frames self.old → HasGot W.contents frames self.new }
        ensures next { self.old.next ≤ self.new.next }
    {
        let frame = self.under_way.take()?;
        if self.at < frame.as_slice().len() {
            self.under_way = Some(frame);
            return None;
        }
        self.at = 0;
        Some(frame)
    }
}

/// Returns the frame at index `at` of the window, for one more owner.
fn frame_at(window: &VecDeque<Frame>, at: u64) -> Option<Frame>
    ensures { IfSome result (λ frame. (at < length window.now.items) × (frame ≡ slice_index_or window.now.items at frame)) }
{
    let at = usize::try_from(at).ok()?;
    window.get(at)?.try_clone().ok()
}

//! The lines that wait for their digests, and the frames that are kept for them.
ghost use Rattle.std.specs.Prelude.{◌≡◌, ◌≢◌, ◌==◌, ◌<◌, ℕ, [], ◌++◌, IfSome, IsTrue, MatchBool, false, get_or, length};
ghost use Rattle.std.specs.List.{list_any};
ghost use Rattle.play_outside.specs.Sink.{Sends};
ghost use Rattle.history_model.specs.text.Frames.{digest_line};
ghost use Rattle.frame_digests.specs.Waiting.{AreKept, HasFrames, IsKeptAt, line_text, lines_text, text_of};

use crate::kept_frame::KeptFrame;
use crate::rooms::Rooms;
use itoa::Buffer;
use play_outside::{Sent, Sink, send_parts};

/// The most lines that wait.
pub(crate) const MAX_LINES: usize = 1_024;

/// A line that waits: the channel, the tick, and the place of its frame among those that are kept.
#[derive(Clone, Copy)]
pub(crate) struct WaitingLine {
    pub channel: u8,
    pub tick: u64,
    pub frame: usize,
}

/// The lines that wait in their order, and the frames that are kept: those of the lines, and the last one of each channel.
#[derive(Drop)]
pub(crate) struct Waiting {
    pub frames: Vec<KeptFrame>,
    // Where the frames of each channel are kept.
    pub channels: Vec<Rooms>,
    pub lines: Vec<WaitingLine>,
}

impl Waiting {
    /// Adds a line to those that wait, and keeps its frame unless it is equal to the one kept last for the channel. It returns
    /// false, and adds no line, if there is no room for the line or the frame.
    pub(crate) fn hold(&mut self, channel: u8, tick: u64, frame: &[u8], sound: &[u8]) -> bool
        requires { AreKept self.old }
        ensures kept { AreKept self.new }
        ensures text { MatchBool result
            (text_of self.new ≡ text_of self.old ++ digest_line channel tick frame.now sound.now)
            (text_of self.new ≡ text_of self.old) }
    {
        if self.lines.len() >= MAX_LINES {
            return false;
        }
        match self.place_of(channel, frame, sound) {
            Some(at) => self
                .lines
                .push(WaitingLine {
                    channel,
                    tick,
                    frame: at,
                })
                .is_ok(),
            None => false,
        }
    }

    /// Returns the place of a frame among those that are kept. It is kept first unless it is equal to the one kept last for the
    /// channel. Returns `None` if there is no room for it.
    fn place_of(&mut self, channel: u8, frame: &[u8], sound: &[u8]) -> Option<usize>
        requires { AreKept self.old }
        ensures lines { self.new.lines ≡ self.old.lines }
        ensures kept { AreKept self.new }
        ensures text { text_of self.new ≡ text_of self.old }
        ensures place { IfSome result (λ at. IsKeptAt self.new.frames.items at (frame.now ++ sound.now)) }
    {
        let place = usize::from(channel).checked_sub(1)?;
        let rooms = *self.channels.get(place)?;
        if self.frames.get(rooms.newest)?.is(frame, sound) {
            return Some(rooms.newest);
        }
        let next = rooms.next();
        if is_awaited(&self.lines, next) {
            return None;
        }
        if !keep(&mut self.frames, next, frame, sound) {
            return None;
        }
        self.channels.get_mut(place)?.newest = next;
        Some(next)
    }

    /// Writes the lines that wait, and computes their digests if that was not done. No line waits afterwards, not even after a
    /// failed write.
    pub(crate) fn send<K: Sink>(&mut self, to: &mut K) -> Sent
        requires { AreKept self.old }
        ensures sends { Sends result (text_of self.old) (K.state to.old) (K.state to.new) }
        ensures none_waits { text_of self.new ≡ [] }
        ensures kept { AreKept self.new }
    {
        let sent = send_lines(&mut self.frames, &self.lines, to);
        self.lines.clear();
        sent
    }
}

/// Returns whether a line waits for the frame at a place.
fn is_awaited(lines: &[WaitingLine], frame: usize) -> bool
    ensures { result ≡ list_any (λ line. line.frame == frame) lines.now }
{
    lines.iter().any(|line| line.frame == frame)
}

/// Keeps a frame and its sound at a place. It returns false if there is no such place or no memory for them.
fn keep(frames: &mut Vec<KeptFrame>, at: usize, frame: &[u8], sound: &[u8]) -> bool
    ensures count { length frames.new.items ≡ length frames.old.items }
    ensures others { (i : ℕ) → i ≢ at → get_or frames.new.items i [] ≡ get_or frames.old.items i [] }
    ensures kept { IsTrue result → IsKeptAt frames.new.items at (frame.now ++ sound.now) }
{
    if at >= frames.len() {
        return false;
    }
    frames[at].keep(frame, sound).is_ok()
}

/// Writes lines in their order.
fn send_lines<K: Sink>(frames: &mut [KeptFrame], lines: &[WaitingLine], to: &mut K) -> Sent
    requires { HasFrames frames.old lines.now }
    ensures sends { Sends result (lines_text frames.old lines.now) (K.state to.old) (K.state to.new) }
    ensures same { frames.new ≡ frames.old }
{
    for line in lines {
        send_line(*line, &mut frames[line.frame], to)?;
    }
    Sent::All
}

/// Writes a line with the digest of its frame: `D`, the channel, the tick and the digits.
fn send_line<K: Sink>(line: WaitingLine, frame: &mut KeptFrame, to: &mut K) -> Sent
    ensures sends { Sends result (digest_line line.channel line.tick frame.old []) (K.state to.old) (K.state to.new) }
    ensures same { frame.new ≡ frame.old }
{
    let digits = frame.digits();
    send_parts(
        &[
            b"D ",
            Buffer::new().format(line.channel).as_bytes(),
            b" ",
            Buffer::new().format(line.tick).as_bytes(),
            b" ",
            &digits,
            b"\n",
        ],
        to,
    )
}

//! Lines of a stream that comes in pieces.
ghost use Rattle.std.specs.Prelude.{◌≡◌, ℕ, List, [], ◌++◌, take, IfOk, is_some};
ghost use Rattle.std.specs.List.{position};
ghost use Rattle.std.specs.Str.Lines.{strip_carriage_return};
ghost use Rattle.amcp_text.specs.Lines.{line_of_text, is_line_end};
ghost use Rattle.amcp_text.specs.Reader.{Represents, IsLineOf, taken_len, with_text, line_view, line_kept};

use std::alloc::{AllocError, Global};
use std::marker::Model;

/// The most bytes of a line's text.
pub const MAX_LINE_BYTES: usize = 4_096;

/// How many bytes of a line are kept: the longest text, and the CR that may belong to the line's end.
const ROOM: usize = MAX_LINE_BYTES + 1;

const LINE_END: u8 = b'\n';

/// A whole line.
#[derive(Clone, Copy, Debug, PartialEq, Eq)]
pub enum LineEvent<'a> {
    /// The text of the line, without its end.
    Line(&'a str),
    /// The text has more than 4,096 bytes.
    TooLong,
    /// The text is not UTF-8.
    NotUtf8,
}

impl<'a> LineEvent<'a> {
    /// Returns the line with this text, which is given without the line end.
    pub fn of(text: &'a [u8]) -> LineEvent<'a>
        ensures { line_view result ≡ line_of_text text.now }
    {
        if text.len() > MAX_LINE_BYTES {
            return LineEvent::TooLong;
        }
        match str::from_utf8(text) {
            Ok(text) => LineEvent::Line(text),
            Err(_) => LineEvent::NotUtf8,
        }
    }
}

/// Takes the bytes of a stream and holds one line at a time.
///
/// It represents the bytes taken since its last `next_line` or `clear`: it keeps at most 4,097 of them, and whether
/// there were more.
#[derive(Debug, Drop)]
pub struct LineReader {
    kept: Vec<u8>,
    over: bool,
    held: bool,
}

impl Model for LineReader {
    ghost use Rattle.std.specs.Prelude.{◌≡◌, ◌+◌, ◌≤◌, vec_capacity, vec_len};
    ghost use Rattle.amcp_text.specs.ReaderState.{ReaderState};
    ghost use Rattle.amcp_text.specs.declared.line_reader.TheConstants.{ROOM};

    ghost Value = { ReaderState };

    ghost view = { λ r. record { kept = r.kept.items; over = r.over; held = r.held } };

    ghost invariant = { λ r. (vec_len r.kept ≤ ROOM) × (ROOM ≤ vec_capacity r.kept) };
}

impl LineReader {
    /// Creates a reader that has taken nothing, with room for one line. No other method allocates.
    pub fn new(alloc: Global) -> Result<LineReader, AllocError>
        ensures { IfOk result (λ reader. Represents reader []) }
    {
        let kept = Vec::with_capacity(alloc, ROOM)?;
        Ok(LineReader {
            kept,
            over: false,
            held: false,
        })
    }

    /// Takes the bytes of `piece` up to and with its first LF, and returns how many these are: 0 exactly if a whole
    /// line is held or the piece is empty.
    pub fn feed(&mut self, piece: &[u8]) -> usize
        ensures count { result ≡ taken_len self.old.held piece.now }
        ensures stands { (bytes : List ℕ)
            → Represents self.old bytes → Represents self.new (bytes ++ take result piece.now) }
    {
        if self.held {
            return 0;
        }
        match line_end(piece) {
            Some(end) => {
                self.keep(&piece[..end]);
                self.held = true;
                end + 1
            }
            None => {
                self.keep(piece);
                piece.len()
            }
        }
    }

    /// Returns the line that is held: `None` exactly if no whole line is held.
    pub fn line(&self) -> Option<LineEvent<'_>>
        ensures held { is_some result ≡ self.now.held }
        ensures line { (bytes : List ℕ) → Represents self.now bytes → IsLineOf result bytes }
    {
        if !self.held {
            return None;
        }
        Some(self.whole_line())
    }

    /// Drops the line that is held. If no whole line is held, the bytes taken so far are dropped.
    pub fn next_line(&mut self)
        ensures { Represents self.new [] }
    {
        self.clear();
    }

    /// Drops all bytes that were taken.
    pub fn clear(&mut self)
        ensures { Represents self.new [] }
    {
        self.kept.clear();
        self.over = false;
        self.held = false;
    }

    /// Keeps as much of `text` as there is room for, and whether some of it found no room.
    fn keep(&mut self, text: &[u8])
        ensures { self.new ≡ with_text self.old text.now }
    {
        let room = ROOM - self.kept.len();
        let fits = text.len().min(room);
        self.kept.extend_from_slice(&text[..fits]).unwrap();
        if fits < text.len() {
            self.over = true;
        }
    }

    /// Returns the line that is held, from what is kept of it.
    fn whole_line(&self) -> LineEvent<'_>
        ensures { line_view result ≡ line_kept self.now }
    {
        if self.over {
            return LineEvent::TooLong;
        }
        LineEvent::of(without_carriage_return(self.kept.as_slice()))
    }
}

/// Returns the position of the first LF of a piece.
fn line_end(piece: &[u8]) -> Option<usize>
    ensures { result ≡ position is_line_end piece.now }
{
    piece.iter().position(|byte| *byte == LINE_END)
}

/// Returns the text of a line that is given without its LF: one CR at its end is left out.
pub fn without_carriage_return(line: &[u8]) -> &[u8]
    ensures { result.now ≡ strip_carriage_return line.now }
{
    match line {
        [text @ .., b'\r'] => text,
        _ => line,
    }
}

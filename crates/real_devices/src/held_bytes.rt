//! Bytes that were read from a connection and not handed on yet.
ghost use Rattle.std.specs.Prelude.{◌≡◌, ◌↔◌, ◌<◌, ◌≤◌, ◌++◌, [], length, take, IsTrue, MatchResult};
ghost use Rattle.std.specs.Io.KnownBytes.{Consumes, IsAtEnd, Keeps};

use std::io::{self, Read};
use std::marker::Model;

/// The most bytes that are read from a connection at once.
const ROOM: usize = 4_096;

/// Bytes that were read from a connection, and are handed on line by line. Contracts see those that are left.
#[derive(Drop)]
pub(crate) struct HeldBytes {
    bytes: [u8; ROOM],
    at: usize,
    end: usize,
}

impl Model for HeldBytes {
    ghost use Rattle.std.specs.Prelude.{◌≤◌, ◌-◌, ℕ, List, take, drop, length};

    ghost Value = { List ℕ };

    ghost view = { λ h. take (h.end - h.at) (drop h.at h.bytes) };

    ghost invariant = { λ h. (h.at ≤ h.end) × (h.end ≤ length h.bytes) };
}

impl HeldBytes {
    /// Returns no bytes.
    pub(crate) const fn new() -> HeldBytes
        ensures { result ≡ [] }
    {
        HeldBytes {
            bytes: [0; ROOM],
            at: 0,
            end: 0,
        }
    }

    /// Returns whether nothing is left.
    pub(crate) fn is_empty(&self) -> bool
        ensures { IsTrue result ↔ (self.now ≡ []) }
    {
        self.at == self.end
    }

    /// Returns the bytes that are left.
    pub(crate) fn as_slice(&self) -> &[u8]
        ensures { result.now ≡ self.now }
    {
        &self.bytes[self.at..self.end]
    }

    /// Reads a piece from the stream in place of what was held, and returns how many bytes it has.
    pub(crate) fn fill<S: Read>(&mut self, stream: &mut S) -> io::Result<usize>
        ensures read { MatchResult result
            (λ count. (count ≡ length self.new) × Consumes (S.remaining stream.old) (S.remaining stream.new) self.new
            × (count ≡ 0 → IsAtEnd (S.remaining stream.new)))
            (λ error. (self.new ≡ []) × Keeps (S.remaining stream.old) (S.remaining stream.new)) }
    {
        self.at = 0;
        self.end = 0;
        let count = stream.read(&mut self.bytes)?;
        self.end = count;
        Ok(count)
    }

    /// Hands on the first line with its LF, or as much of it as fits in `buf`, or all bytes if no line ends. Returns
    /// how many bytes these are.
    pub(crate) fn give_line(&mut self, buf: &mut [u8]) -> usize
        ensures fits { result ≤ length buf.old }
        ensures some { 0 < length buf.old → 0 < length self.old → 0 < result }
        ensures left { self.old ≡ take result buf.new ++ self.new }
        ensures buffer { length buf.new ≡ length buf.old }
    {
        let left = self.as_slice();
        let count = first_line(left).min(buf.len());
        buf[..count].copy_from_slice(&left[..count]);
        self.at += count;
        count
    }
}

/// Returns how many bytes the first line has with its LF, or how many there are if no line ends.
fn first_line(bytes: &[u8]) -> usize
    ensures fits { result ≤ length bytes.now }
    ensures some { 0 < length bytes.now → 0 < result }
{
    match bytes.iter().position(|byte| *byte == b'\n') {
        Some(at) => at + 1,
        None => bytes.len(),
    }
}

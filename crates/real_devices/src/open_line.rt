//! The line of a client that has not ended yet.
ghost use Rattle.std.specs.Prelude.{◌≡◌, false, reverse};
ghost use Rattle.std.specs.List.{list_any, position};
ghost use Rattle.real_devices.specs.inner.OpenLine.{ends_word, is_line_end, is_word_byte, leaves_word};

use std::mem;

/// The bytes so far of a line that has not ended: whether they have a word.
#[derive(Clone, Copy)]
pub(crate) struct OpenLine {
    has_word: bool,
}

impl OpenLine {
    /// Returns a line of which nothing has come.
    pub(crate) const fn new() -> OpenLine
        ensures { result ≡ record { has_word = false } }
    {
        OpenLine { has_word: false }
    }

    /// Takes the bytes that come next, and returns whether they ended a line that has a word.
    pub(crate) fn take(&mut self, bytes: &[u8]) -> bool
        ensures ended { result ≡ ends_word self.old.has_word bytes.now }
        ensures left { self.new.has_word ≡ leaves_word self.old.has_word bytes.now }
    {
        match after_last_end(bytes) {
            None => {
                self.has_word |= has_word(bytes);
                false
            }
            Some(after) => {
                let end = bytes.len() - 1 - after;
                self.has_word |= has_word(&bytes[..end]);
                mem::replace(&mut self.has_word, has_word(&bytes[end + 1..]))
            }
        }
    }
}

/// Returns how many bytes come after the last LF, if there is one.
fn after_last_end(bytes: &[u8]) -> Option<usize>
    ensures { result ≡ position is_line_end (reverse bytes.now) }
{
    bytes.iter().rev().position(|byte| *byte == b'\n')
}

/// Returns whether some byte is one of a word.
fn has_word(bytes: &[u8]) -> bool
    ensures { result ≡ list_any is_word_byte bytes.now }
{
    bytes
        .iter()
        .any(|byte| !matches!(*byte, b'\n' | b' ' | b'\t' | b'\r'))
}

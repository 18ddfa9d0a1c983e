//! Reports on how far a history was read.

/// Receives reports for a person on how far the text of a history was played. It changes nothing that is read.
pub trait ReadTeller {
    /// Reports that the lines in the first `bytes` bytes of the text were played. The text has `of` bytes.
    fn played(&mut self, _bytes: usize, _of: usize) {}
}

/// A teller that reports nothing.
#[derive(Clone, Copy, Debug)]
pub struct NoTeller;

impl ReadTeller for NoTeller {}

//! A connection, which is read and written.
ghost use Rattle.std.specs.Prelude.{◌<◌, length};
ghost use Rattle.play_outside.specs.Link.{LinkReads};

use super::Sink;

/// What a read from a link did.
#[derive(Clone, Copy, Debug, PartialEq, Eq)]
pub enum LinkStep {
    /// This many bytes were put at the beginning of the buffer, at least one.
    Got(usize),
    /// The other side has closed.
    End,
    /// Nothing has come yet.
    Again,
    /// The device failed, and gave nothing.
    Failed,
}

/// A read that did not fail: the counts of its link when it was called.
#[derive(Clone, Copy, Debug, PartialEq, Eq)]
pub struct Look {
    /// How many bytes the link had taken by writes.
    pub taken: usize,
    /// How many bytes had been read.
    pub read: usize,
}

/// A connection to a client.
pub trait Link: Sink + Send {
    /// Reads into the beginning of the buffer, finds the end, finds nothing yet, or fails and gives nothing. If
    /// nothing has come yet, the idle count rises by one; a failed read raises the count of faults by one. A link that
    /// exposes its reads exposes each one that does not fail, with how many bytes it had taken and read by then. What was
    /// taken and the mark stay as they were.
    fn read(&mut self, buf: &mut [u8]) -> LinkStep
        requires { 0 < length buf.old }
        ensures { LinkReads result buf.new (Self.state self.old) (Self.state self.new) };
}

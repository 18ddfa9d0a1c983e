//! A source that never fails.
ghost use Rattle.std.specs.Prelude.{◌≡◌, ◌<◌, Some, IfSome, length};
ghost use Rattle.play_outside.specs.Source.{Reads, whole_read};

use crate::memory::Unread;
use crate::{ReadStep, Source};

/// Bytes in memory, given from the first to the last, at each read as many as the buffer takes. It never fails, and
/// exposes what is left.
#[derive(Drop)]
pub struct PlainSource {
    unread: Unread,
}

impl PlainSource {
    /// Creates a source of these bytes.
    pub fn new(bytes: Vec<u8>) -> PlainSource
        ensures { ⟦<PlainSource as Source>⟧.state result ≡ record { left = Some bytes.items; faults = 0 } }
    {
        PlainSource {
            unread: Unread::new(bytes),
        }
    }
}

impl Source for PlainSource {
    ghost state = { λ s. record { left = Some s.unread.left; faults = 0 } };

    fn read(&mut self, buf: &mut [u8]) -> ReadStep
        requires { 0 < length buf.old }
        ensures reads { Reads result buf.new (⟦<PlainSource as Source>⟧.state self.old) (⟦<PlainSource as Source>⟧.state self.new) }
        ensures whole { IfSome (⟦<PlainSource as Source>⟧.state self.old).left (λ left. result ≡ whole_read left (length buf.old)) }
    {
        let room = buf.len();
        match self.unread.give(buf, room) {
            0 => ReadStep::End,
            count => ReadStep::Got(count),
        }
    }
}

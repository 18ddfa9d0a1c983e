//! A link of which one call waits for a flag.
ghost use Rattle.std.specs.Prelude.{◌≡◌};

use super::FlaggedCall;
use super::hold::Hold;
use crate::{Link, LinkStep, MemLink, Sink, WriteStep};

/// A link in memory, of which one call waits for a flag. Reads and writes are counted together.
#[derive(Drop)]
pub struct HeldLink {
    link: MemLink,
    hold: Hold,
}

impl HeldLink {
    /// Creates a link that holds the call of `waits` until its flag is set, or fails it after 2,000,000,000 turns, and sets
    /// the flag of `sets` at its call.
    pub fn new(link: MemLink, waits: Option<FlaggedCall>, sets: Option<FlaggedCall>) -> HeldLink
        ensures { ⟦<HeldLink as Sink>⟧.state result ≡ ⟦<MemLink as Sink>⟧.state link }
    {
        HeldLink {
            link,
            hold: Hold::new(waits, sets),
        }
    }

    /// Returns the link as it is now.
    pub fn link(&self) -> &MemLink
        ensures { ⟦<MemLink as Sink>⟧.state result.now ≡ ⟦<HeldLink as Sink>⟧.state self.now }
    {
        &self.link
    }
}

impl Sink for HeldLink {
    ghost state = { λ h. ⟦<MemLink as Sink>⟧.state h.link };

    fn write(&mut self, piece: &[u8]) -> WriteStep {
        if self.hold.goes_on() {
            self.link.write(piece)
        } else {
            self.link.fail_write()
        }
    }
}

impl Link for HeldLink {
    fn read(&mut self, buf: &mut [u8]) -> LinkStep {
        if self.hold.goes_on() {
            self.link.read(buf)
        } else {
            self.link.fail_read()
        }
    }
}

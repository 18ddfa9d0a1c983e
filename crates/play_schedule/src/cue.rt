//! The cue lines of a sheet.

use play_types::{ByteList, Tag};

/// When the first copy of a cue line is due.
#[derive(Clone, Copy, Debug, PartialEq, Eq)]
pub enum Start {
    /// At a moment: after this number of ticks.
    At(u32),
    /// This number of ticks after the moment of the cue line before.
    After(u32),
}

/// The copies of a cue line.
#[derive(Clone, Copy, Debug, PartialEq, Eq)]
pub struct Copies {
    /// The number of copies, from 1.
    pub count: u32,
    /// The number of ticks from each copy to the next.
    pub interval: u32,
}

/// A cue line of a sheet.
#[derive(Debug, Drop)]
pub struct Cue {
    /// The moment of the first copy.
    pub moment: u32,
    pub copies: Copies,
    /// The connection that sends the text.
    pub tag: Tag,
    pub text: ByteList,
}

//! Why a file of a folder is no clip, for a person.

use crate::grouped::Grouped;
use clip_format::decode;
use play_types::ClipFault;
use std::alloc::Global;
use std::fmt;

/// The length of a clip file's header, in bytes.
const HEADER_LEN: usize = 20;

/// Why a file is no clip.
#[derive(Drop)]
pub(crate) enum Unreadable {
    /// It has `had` bytes, fewer than a header.
    Headless { had: u64 },
    /// It has `had` bytes, and its header announces another number.
    OtherLength { had: u64, announced: u64 },
    /// Its header is refused.
    Header(ClipFault),
}

impl fmt::Display for Unreadable {
    fn fmt<W: fmt::Write>(&self, f: &mut fmt::Formatter<W>) -> fmt::Result {
        match self {
            Unreadable::Headless { had } => {
                write!(f, "has {had} bytes, a header alone has {HEADER_LEN}")
            }
            Unreadable::OtherLength { had, announced } => {
                let (had, announced) = (Grouped(*had), Grouped(*announced));
                write!(f, "has {had} bytes, its header says {announced}")
            }
            Unreadable::Header(fault) => write!(f, "{fault}"),
        }
    }
}

impl Unreadable {
    /// Returns why the bytes of a file are no clip, or `None` if they are one, or if memory ran out for a copy of the
    /// header.
    pub(crate) fn find(alloc: Global, bytes: &[u8]) -> Option<Unreadable> {
        let had = bytes.len() as u64;
        if bytes.len() < HEADER_LEN {
            return Some(Unreadable::Headless { had });
        }
        let header = bytes[..HEADER_LEN].to_vec(alloc).ok()?;
        let fault = decode(header).err()?;
        match fault {
            ClipFault::Short { needed, .. } if needed == had => None,
            ClipFault::Short { needed, .. } => Some(Unreadable::OtherLength {
                had,
                announced: needed,
            }),
            ClipFault::BadMagic
            | ClipFault::BadVersion
            | ClipFault::BadField { .. }
            | ClipFault::Long { .. }
            | ClipFault::OutOfMemory => Some(Unreadable::Header(fault)),
        }
    }
}

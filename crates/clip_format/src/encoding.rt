//! Writes clip files.
ghost use Rattle.std.specs.Prelude.{◌≡◌, Ok};
ghost use Rattle.play_outside.specs.Sink.{Sends};
ghost use Rattle.play_types.specs.ClipFile.{clip_bytes, header_bytes};
ghost use Rattle.clip_format.specs.Decoding.{clip_of};

use crate::header::{header_of, header_with};
use play_outside::{Sent, Sink, send_parts};
use play_types::{Clip, Geometry};

/// Writes the file of a clip, which [`decode`](crate::decode) reads back as the clip. The result is `Failed` only if the sink
/// failed, and then a prefix of the file was written.
pub fn encode<K: Sink>(clip: &Clip, to: &mut K) -> Sent
    ensures written { Sends result (clip_bytes clip.now) (K.state to.old) (K.state to.new) }
    ensures reads_back { clip_of (clip_bytes clip.now) ≡ Ok clip.now }
{
    let header = header_of(clip);
    send_parts(&[&header, clip.bytes()], to)
}

/// Writes the header of the file of a clip of this version, this size and this number of frames. The result is `Failed` only
/// if the sink failed, and then a prefix of the header was written.
pub fn send_header<K: Sink>(version: u16, size: Geometry, frames: u32, to: &mut K) -> Sent
    ensures { Sends result (header_bytes version size frames) (K.state to.old) (K.state to.new) }
{
    send_parts(&[&header_with(version, size, frames)], to)
}

//! A clip in memory.
ghost use Rattle.std.specs.Prelude.{◌≡◌, ◌↔◌, IsSome, IfSome};
ghost use Rattle.play_types.specs.ClipFile.{IsClip};

use crate::bytes::ByteList;
use crate::geometry::Geometry;
use std::marker::Model;

/// The most frames of a clip.
pub const MAX_FRAMES: u32 = 1_000_000;

/// The version of clips whose colours are multiplied by the alpha.
pub const MULTIPLIED: u16 = 1;

/// The version of clips with straight alpha: their colours are not multiplied by it.
pub const STRAIGHT: u16 = 2;

/// A clip: its version, 1 or 2, its size, its number of frames, 1 to 1,000,000, and the bytes of its frames one after
/// another.
///
/// A frame is its pixels, B, G, R and A of each, in rows from the top, and then its stereo pairs, left and right, each
/// an `i16` in little-endian.
#[derive(Debug, Drop)]
pub struct Clip {
    version: u16,
    geometry: Geometry,
    frames: u32,
    bytes: ByteList,
}

impl Model for Clip {
    ghost use Rattle.play_types.specs.ClipFile.{ClipView, IsClip};

    ghost Value = { ClipView };

    ghost view = { λ c. record { version = c.version; geometry = c.geometry; frames = c.frames; bytes = c.bytes } };

    ghost invariant = { λ c. IsClip (record { version = c.version; geometry = c.geometry; frames = c.frames; bytes = c.bytes }) };
}

impl Clip {
    /// Creates a clip. It returns `None` exactly if the version is not 1 or 2, the size is out of range, the frames are
    /// not 1 to 1,000,000, or there are more or fewer bytes than `frames` frames of this size have.
    pub fn new(version: u16, geometry: Geometry, frames: u32, bytes: ByteList) -> Option<Clip>
        ensures exact { IsSome result
            ↔ IsClip (record { version = version; geometry = geometry; frames = frames; bytes = bytes }) }
        ensures value { IfSome result
            (λ c. c ≡ record { version = version; geometry = geometry; frames = frames; bytes = bytes }) }
    {
        if !(MULTIPLIED..=STRAIGHT).contains(&version) {
            return None;
        }
        if !geometry.is_in_range() || !(1..=MAX_FRAMES).contains(&frames) {
            return None;
        }
        if bytes.as_slice().len() as u64 != u64::from(frames) * geometry.frame_bytes() {
            return None;
        }
        Some(Clip {
            version,
            geometry,
            frames,
            bytes,
        })
    }

    /// Returns the version: 1 if the colours are multiplied by the alpha, and 2 if they are not.
    pub fn version(&self) -> u16
        ensures value { result ≡ self.now.version }
        ensures range { IsClip self.now }
    {
        self.version
    }

    /// Returns the size: 1 to 4096 columns and rows, and at most 4096 pairs.
    pub fn geometry(&self) -> Geometry
        ensures value { result ≡ self.now.geometry }
        ensures range { IsClip self.now }
    {
        self.geometry
    }

    /// Returns the number of frames, 1 to 1,000,000.
    pub fn frames(&self) -> u32
        ensures value { result ≡ self.now.frames }
        ensures range { IsClip self.now }
    {
        self.frames
    }

    /// Returns the bytes of all frames.
    pub fn bytes(&self) -> &[u8]
        ensures value { result.now ≡ self.now.bytes }
        ensures range { IsClip self.now }
    {
        self.bytes.as_slice()
    }

    /// Hands the bytes of all frames back, without a copy.
    pub fn into_bytes(self) -> ByteList
        ensures value { result ≡ self.bytes }
        ensures range { IsClip self }
    {
        self.bytes
    }
}

//! The names of the media table.
ghost use Rattle.std.specs.Prelude.{◌≡◌, ◌==◌, ◌<◌, ◌≤◌, ◌↔◌, ◌∷◌, ◌++◌, [], length, All, IsSome, IfSome, OnOk, OnErr, option_copied, slice_get};
ghost use Rattle.std.specs.Slice.Iter.{iter_rest};
ghost use Rattle.play_types.specs.Media.{AreClipNumbers, IsMediaName, clip_name, unreadable_name};
ghost use Rattle.play_types.specs.declared.media.TheConstants.{MAX_MEDIA_NAMES};

use crate::clip::MAX_FRAMES;
use crate::geometry::Geometry;
use crate::text::Text;
use std::alloc::{AllocError, Global};
use std::marker::Model;
use std::slice;

/// The most clips that a media table may have.
pub const MAX_MEDIA_NAMES: usize = 4_294_967_295;

/// The name of a clip, with its size and its frames. If the clip is not readable, the numbers are 0.
#[derive(Debug, Drop)]
pub struct MediaName {
    name: Text,
    readable: bool,
    width: u16,
    height: u16,
    frames: u32,
    pairs: u16,
}

impl Model for MediaName {
    ghost use Rattle.play_types.specs.Media.{MediaNameView, IsMediaName};

    ghost Value = { MediaNameView };

    ghost view = { λ m. record { name = m.name; readable = m.readable; width = m.width; height = m.height; frames = m.frames; pairs = m.pairs } };

    ghost invariant = { λ m. IsMediaName (record { name = m.name; readable = m.readable; width = m.width; height = m.height; frames = m.frames; pairs = m.pairs }) };
}

impl MediaName {
    /// Creates the name of a readable clip, with its size and the number of its frames.
    ///
    /// It returns `None` exactly if the width or the height is not 1 to 4096, the pairs are above 4096, or the frames
    /// are not 1 to 1,000,000.
    pub fn clip(name: Text, size: Geometry, frames: u32) -> Option<MediaName>
        ensures exact { IsSome result ↔ AreClipNumbers size frames }
        ensures value { IfSome result (λ m. m ≡ clip_name name size frames) }
    {
        if !size.is_in_range() || !(1..=MAX_FRAMES).contains(&frames) {
            return None;
        }
        Some(MediaName {
            name,
            readable: true,
            width: size.width,
            height: size.height,
            frames,
            pairs: size.pairs,
        })
    }

    /// Creates the name of a clip that cannot be read.
    pub fn unreadable(name: Text) -> MediaName
        ensures { result ≡ unreadable_name name }
    {
        MediaName {
            name,
            readable: false,
            width: 0,
            height: 0,
            frames: 0,
            pairs: 0,
        }
    }

    /// Returns the name.
    pub fn name(&self) -> &Text
        ensures { result.now ≡ self.now.name }
    {
        &self.name
    }

    /// Returns whether the clip can be read.
    pub fn is_readable(&self) -> bool
        ensures { result ≡ self.now.readable }
    {
        self.readable
    }

    /// Returns the width in columns: 1 to 4096 for a readable clip, and else 0.
    pub fn width(&self) -> u16
        ensures value { result ≡ self.now.width }
        ensures range { IsMediaName self.now }
    {
        self.width
    }

    /// Returns the height in rows: 1 to 4096 for a readable clip, and else 0.
    pub fn height(&self) -> u16
        ensures value { result ≡ self.now.height }
        ensures range { IsMediaName self.now }
    {
        self.height
    }

    /// Returns the number of frames: 1 to 1,000,000 for a readable clip, and else 0.
    pub fn frames(&self) -> u32
        ensures value { result ≡ self.now.frames }
        ensures range { IsMediaName self.now }
    {
        self.frames
    }

    /// Returns the stereo pairs of sound of a frame, at most 4096.
    pub fn pairs(&self) -> u16
        ensures value { result ≡ self.now.pairs }
        ensures range { IsMediaName self.now }
    {
        self.pairs
    }
}

/// Names in the order of the media table, at most 4,294,967,295.
#[derive(Debug, Drop)]
pub struct MediaNames {
    names: Vec<MediaName>,
}

impl Model for MediaNames {
    ghost use Rattle.std.specs.Prelude.{List, ◌≤◌, length, All};
    ghost use Rattle.play_types.specs.Media.{MediaNameView, IsMediaName};
    ghost use Rattle.play_types.specs.declared.media.TheConstants.{MAX_MEDIA_NAMES};

    ghost Value = { List MediaNameView };

    ghost view = { λ l. l.names.items };

    ghost invariant = { λ l. (length l.names.items ≤ MAX_MEDIA_NAMES) × All IsMediaName l.names.items };
}

impl MediaNames {
    /// Creates a list without names. It does not allocate.
    pub fn new(alloc: Global) -> MediaNames
        ensures { result ≡ [] }
    {
        MediaNames {
            names: Vec::new(alloc),
        }
    }

    /// Adds a name at the end. If memory runs out, the list stays as it was.
    pub fn push(&mut self, name: MediaName) -> Result<(), AllocError>
        requires { length self.old < MAX_MEDIA_NAMES }
        ensures ok { OnOk result (self.new ≡ self.old ++ name ∷ []) }
        ensures err { OnErr result (self.new ≡ self.old) }
    {
        // Reading a field makes the ranges of the name's numbers known, which the invariant of the list needs.
        let _ = &name.readable;
        self.names.push(name)?;
        Ok(())
    }

    /// Returns the number of names, at most 4,294,967,295.
    pub fn len(&self) -> usize
        ensures value { result ≡ length self.now }
        ensures range { length self.now ≤ MAX_MEDIA_NAMES }
        ensures names { All IsMediaName self.now }
    {
        self.names.len()
    }

    /// Returns whether there are no names.
    pub fn is_empty(&self) -> bool
        ensures { result ≡ (length self.now == 0) }
    {
        self.names.is_empty()
    }

    /// Returns the names in order.
    pub fn iter(&self) -> slice::Iter<'_, MediaName>
        ensures { iter_rest result ≡ self.now }
    {
        self.names.iter()
    }

    /// Returns the name at position `at`, counted from 0: `None` exactly if `at` is not below the length.
    pub fn get(&self, at: usize) -> Option<&MediaName>
        ensures { option_copied result ≡ slice_get self.now at }
    {
        self.names.get(at)
    }
}

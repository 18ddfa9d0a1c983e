//! The part of a channel in the frames of all.
ghost use Rattle.std.specs.Prelude.{◌≡◌, ◌*◌, length, IfOk};
ghost use Rattle.play_types.specs.Geometry.{IsSize};
ghost use Rattle.play_scene.specs.Frames.{picture_length, zero_frame};

use play_types::{Channel, Geometry};
use std::alloc::{AllocError, Global};

/// What is kept of a channel's frame beside its pixels: its size, the place of its first pixel in the bytes of all pixels, and the
/// bytes of its sound.
#[derive(Drop)]
pub(crate) struct Part {
    pub size: Geometry,
    pub start: usize,
    pub sound: Vec<u8>,
    ghost sized: { IsSize size.width size.height size.pairs },
    ghost whole: { length sound.items ≡ 4 * size.pairs },
}

impl Part {
    /// Returns the silent part of a channel whose pixels begin at `start`.
    pub(crate) fn new(alloc: Global, channel: &Channel, start: usize) -> Result<Part, AllocError>
        ensures size { IfOk result (λ part. part.size ≡ (zero_frame channel.now).size) }
        ensures sound { IfOk result (λ part. part.sound.items ≡ (zero_frame channel.now).sound) }
        ensures start { IfOk result (λ part. part.start ≡ start) }
    {
        let size = channel.geometry();
        Ok(Part {
            size,
            start,
            sound: vec![in alloc; 0; 4 * usize::from(size.pairs)]?,
        })
    }

    /// Returns the number of bytes of the channel's pixels.
    pub(crate) fn picture_length(&self) -> usize
        ensures { result ≡ picture_length self.now.size }
    {
        4 * usize::from(self.size.width) * usize::from(self.size.height)
    }

    /// Writes the whole sound.
    pub(crate) fn put_sound(&mut self, bytes: &[u8])
        requires fits { length bytes.now ≡ length self.old.sound.items }
        ensures size { self.new.size ≡ self.old.size }
        ensures start { self.new.start ≡ self.old.start }
        ensures sound { self.new.sound.items ≡ bytes.now }
    {
        self.sound.copy_from_slice(bytes);
    }
}

//! The frames of all channels.
ghost use Rattle.std.specs.Prelude.{◌≡◌, ◌+◌, ◌%◌, ◌≤◌, length, map, IfOk};
ghost use Rattle.play_types.specs.Scene.{IsConfigured};
ghost use Rattle.play_scene.specs.Frames.{ArePixels, IsFrame, frame_at, pictures_length, pixels_of, with_bytes, with_piece, with_pixels, with_sound, zero_frame};

use crate::part::Part;
use play_types::{Config, Geometry};
use std::alloc::{AllocError, Global};
use std::marker::Model;
use std::mem;

/// A frame for each channel of a configuration: the bytes of its pixels, in rows from the top, each from the left, blue, green, red
/// and alpha of each pixel, and the bytes of its sound. No pixel has a colour byte above its alpha. Only [`Frames::new`] allocates.
#[derive(Drop)]
pub struct Frames {
    parts: Vec<Part>,
    // The bytes of the pixels of all channels, one channel after another.
    pixels: Vec<u8>,
}

impl Model for Frames {
    ghost use Rattle.std.specs.Prelude.{List};
    ghost use Rattle.play_scene.specs.Frames.{FrameView};
    ghost use Rattle.play_scene.specs.Parts.{ArePartsOf, frames_of};

    ghost Value = { List FrameView };

    ghost view = { λ f. frames_of f.parts.items f.pixels.items };

    ghost invariant = { λ f. ArePartsOf f.pixels.items f.parts.items };
}

impl Frames {
    /// Creates the frames of a configuration, all transparent and silent.
    pub fn new(alloc: Global, config: &Config) -> Result<Frames, AllocError>
        ensures { IfOk result (λ frames. frames ≡ map zero_frame config.now.channels) }
    {
        let channels = config.channels();
        let mut parts = Vec::with_capacity(alloc, channels.len())?;
        let mut count = 0;
        for channel in channels.iter() {
            let part = Part::new(alloc, channel, count)?;
            count += part.picture_length();
            parts.push(part)?;
        }
        Ok(Frames {
            parts,
            pixels: vec![in alloc; 0; count]?,
        })
    }

    /// Returns the size of the frame of a channel, which is configured.
    pub fn size(&self, channel: u8) -> Geometry
        requires { IsConfigured (length self.now) channel }
        ensures value { result ≡ (frame_at channel self.now).size }
        ensures range { IsFrame (frame_at channel self.now) }
    {
        self.parts[usize::from(channel) - 1].size
    }

    /// Returns the bytes of the pixels of a channel, which is configured.
    pub fn bytes(&self, channel: u8) -> &[u8]
        requires { IsConfigured (length self.now) channel }
        ensures value { result.now ≡ (frame_at channel self.now).bytes }
        ensures range { IsFrame (frame_at channel self.now) }
    {
        let part = &self.parts[usize::from(channel) - 1];
        &self.pixels[part.start..part.start + part.picture_length()]
    }

    /// Returns the bytes of the sound of a channel, which is configured: its stereo pairs, left and right, each an `i16` in
    /// little-endian.
    pub fn sound(&self, channel: u8) -> &[u8]
        requires { IsConfigured (length self.now) channel }
        ensures value { result.now ≡ (frame_at channel self.now).sound }
        ensures range { IsFrame (frame_at channel self.now) }
    {
        &self.parts[usize::from(channel) - 1].sound
    }

    /// Writes pixels of a channel in place of those from byte `at` on. The channel is configured, `at` is the place of a
    /// pixel, and the bytes fit and are whole pixels, none with a colour byte above its alpha.
    pub fn put(&mut self, channel: u8, at: usize, bytes: &[u8])
        requires channel { IsConfigured (length self.old) channel }
        requires place { at % 4 ≡ 0 }
        requires fits { at + length bytes.now ≤ length (frame_at channel self.old).bytes }
        requires pixels { ArePixels bytes.now }
        ensures { self.new ≡ with_bytes channel (with_piece at bytes.now (frame_at channel self.old).bytes) self.old }
    {
        let start = self.parts[usize::from(channel) - 1].start + at;
        self.pixels[start..start + bytes.len()].copy_from_slice(bytes);
    }

    /// Writes the whole sound of a channel, which is configured.
    pub fn put_sound(&mut self, channel: u8, bytes: &[u8])
        requires channel { IsConfigured (length self.old) channel }
        requires fits { length bytes.now ≡ length (frame_at channel self.old).sound }
        ensures { self.new ≡ with_sound channel bytes.now self.old }
    {
        self.parts[usize::from(channel) - 1].put_sound(bytes);
    }

    /// Exchanges the pixels of all channels, one channel after another, for those of `pixels`: as many bytes, and no pixel with a
    /// colour byte above its alpha. It copies no byte, and the sounds stay.
    pub fn exchange(&mut self, pixels: &mut Vec<u8>)
        requires length { length pixels.old.items ≡ pictures_length self.old }
        requires pixels { ArePixels pixels.old.items }
        ensures frames { self.new ≡ with_pixels pixels.old.items self.old }
        ensures pixels { pixels.new.items ≡ pixels_of self.old }
        ensures length { length pixels.new.items ≡ length pixels.old.items }
    {
        mem::swap(&mut self.pixels, pixels);
    }
}

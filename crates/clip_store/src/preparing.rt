//! Prepares the pixels of clips.
ghost use Rattle.std.specs.Prelude.{◌≡◌, ◌<◌, ◌≤◌, ◌%◌, length};
ghost use Rattle.clip_format.specs.Preparing.{prepared_clip, prepared_colour};
ghost use Rattle.clip_format.specs.Recolouring.{AreRecoloured, IsRecoloured};

use pixel_math::scaled;
use play_types::{ByteList, Clip, MULTIPLIED, STRAIGHT};
use rayon::prelude::*;
use std::thread::Threads;

/// Returns the clip in version 1 with each pixel prepared, in several threads.
pub(crate) fn prepared<R: Threads + Sync>(rt: &R, clip: Clip) -> Clip
    ensures { result ≡ prepared_clip clip }
{
    let version = clip.version();
    let size = clip.geometry();
    let frames = clip.frames();
    let picture = 4 * usize::from(size.width) * usize::from(size.height);
    let frame = picture + 4 * usize::from(size.pairs);
    let mut bytes = clip.into_bytes().into_vec();
    prepare_frames(rt, version, picture, frame, bytes.as_mut_slice());
    Clip::new(MULTIPLIED, size, frames, ByteList::new(bytes)).unwrap()
}

/// Prepares the picture of each frame, which is its first `picture` bytes.
fn prepare_frames<R: Threads + Sync>(
    rt: &R,
    version: u16,
    picture: usize,
    frame: usize,
    bytes: &mut [u8],
)
    requires some { 0 < frame }
    requires within { picture ≤ frame }
    requires picture_of_pixels { picture % 4 ≡ 0 }
    requires frame_of_pixels { frame % 4 ≡ 0 }
    requires whole { length bytes.old % frame ≡ 0 }
    ensures { AreRecoloured (prepared_colour version) picture frame bytes.old bytes.new }
{
    par_chunks_mut_for_each(
        rt,
        bytes,
        frame,
        |_start: usize, chunk: &mut [u8]|
            requires within { picture ≤ length chunk.old }
            requires pixels { picture % 4 ≡ 0 }
            ensures { IsRecoloured (prepared_colour version) 0 picture chunk.old chunk.new }
        {
            prepare_front(version, picture, chunk);
        },
    );
}

/// Prepares the pixels of the first `picture` bytes.
fn prepare_front(version: u16, picture: usize, bytes: &mut [u8])
    requires within { picture ≤ length bytes.old }
    requires pixels { picture % 4 ≡ 0 }
    ensures { IsRecoloured (prepared_colour version) 0 picture bytes.old bytes.new }
{
    for at in 0..picture {
        if at % 4 < 3 {
            bytes[at] = prepared_colour(version, bytes[at], bytes[at / 4 * 4 + 3]);
        }
    }
}

/// Returns a colour byte prepared by its alpha: lowered to it in version 1, and multiplied by it in version 2.
fn prepared_colour(version: u16, colour: u8, alpha: u8) -> u8
    ensures { result ≡ prepared_colour version colour alpha }
{
    if version == STRAIGHT {
        scaled(colour, alpha)
    } else {
        colour.min(alpha)
    }
}

//! Clips with straight alpha.
ghost use Rattle.std.specs.Prelude.{◌≡◌, ◌+◌, ◌<◌, ◌≤◌, ◌%◌, length};
ghost use Rattle.clip_format.specs.Preparing.{AreBytes, prepared_clip, straight_clip, straight_colour};
ghost use Rattle.clip_format.specs.Recolouring.{AreRecoloured, IsRecoloured};

use pixel_math::straight;
use play_types::{ByteList, Clip, STRAIGHT};

/// Returns the clip of version 2 that shows what the clip shows. A clip of version 2 stays as it is. In one of version 1
/// each colour byte above its alpha is lowered to it, and then becomes the nearest byte to `colour * 255 / alpha`, or 0 if
/// the alpha is 0. The alphas and the sound stay.
///
/// The bytes are changed in place.
pub fn straight_clip(clip: Clip) -> Clip
    ensures value { result ≡ straight_clip clip }
    ensures shown { prepared_clip result ≡ prepared_clip clip }
{
    if clip.version() == STRAIGHT {
        return clip;
    }
    let size = clip.geometry();
    let frames = clip.frames();
    let picture = 4 * usize::from(size.width) * usize::from(size.height);
    let frame = picture + 4 * usize::from(size.pairs);
    let mut bytes = clip.into_bytes().into_vec();
    straighten_frames(picture, frame, bytes.as_mut_slice());
    Clip::new(STRAIGHT, size, frames, ByteList::new(bytes)).unwrap()
}

/// Makes the colours of each frame's picture straight, the first `picture` bytes of it.
fn straighten_frames(picture: usize, frame: usize, bytes: &mut [u8])
    requires some { 0 < frame }
    requires within { picture ≤ frame }
    requires picture_of_pixels { picture % 4 ≡ 0 }
    requires frame_of_pixels { frame % 4 ≡ 0 }
    requires whole { length bytes.old % frame ≡ 0 }
    ensures made { AreRecoloured straight_colour picture frame bytes.old bytes.new }
    ensures of_bytes { AreBytes bytes.old }
{
    for number in 0..bytes.len() / frame {
        let start = number * frame;
        straighten(start, start + picture, bytes);
    }
}

/// Makes the colours of the pixels from byte `from` up to byte `to` straight.
fn straighten(from: usize, to: usize, bytes: &mut [u8])
    requires order { from ≤ to }
    requires within { to ≤ length bytes.old }
    requires pixels { to % 4 ≡ 0 }
    ensures { IsRecoloured straight_colour from to bytes.old bytes.new }
{
    for at in from..to {
        if at % 4 < 3 {
            let alpha = bytes[at / 4 * 4 + 3];
            bytes[at] = straight(bytes[at].min(alpha), alpha);
        }
    }
}

//! Rows of pictures.
ghost use Rattle.std.specs.Prelude.{◌≡◌, ℕ, ◌+◌, ◌*◌, ◌<◌, ◌≤◌, ◌^◌, true, length, take, drop, IfSome, MatchOption};
ghost use Rattle.play_types.specs.Geometry.{IsSize};
ghost use Rattle.play_types.specs.Scene.{ShowsConfigured};
ghost use Rattle.play_types.specs.declared.clip.TheConstants.{MULTIPLIED};
ghost use Rattle.play_types.specs.declared.geometry.Geometry.{Geometry as GeometryView};
ghost use Rattle.pixel_math.specs.Pixel.{transparent};
ghost use Rattle.clip_format.specs.Preparing.{IsLowered};
ghost use Rattle.history_model.specs.pictures.Media.{clip_pixel};
ghost use Rattle.history_model.specs.pictures.Raster.{Pictures, scaled_to, still_pixel};
ghost use Rattle.play_scene.specs.Frames.{ArePictures};
ghost use Rattle.row_render.specs.inner.Sources.{IsPicture, plain_pixel, scaled_pixel};

use crate::view::View;
use pixel_math::Pixel;
use play_types::{Clip, Geometry, Still};

/// Returns the one pixel of a still that is no picture, and a transparent one for a picture.
pub(crate) fn plain_pixel(still: Still) -> Pixel
    ensures { result ≡ plain_pixel still }
{
    match still {
        Still::Colour(value) => Pixel::colour(value),
        Still::Nothing | Still::Frame(_, _) | Still::Channel(_) => Pixel::transparent(),
    }
}

/// Returns whether a still is known to be transparent at each column and row: it is nothing, or a colour whose alpha is 0.
pub(crate) fn is_clear(still: Still) -> bool
    ensures { result ≡ true → (pictures : Pictures) (size : GeometryView) (x y : ℕ) → still_pixel pictures size still x y ≡ transparent }
{
    match still {
        Still::Nothing => true,
        Still::Colour(value) => value < 0x0100_0000,
        Still::Frame(_, _) | Still::Channel(_) => false,
    }
}

/// Returns the row of a still that row `y` of the raster shows: the row of its clip or of the frame of its channel. Returns `None`
/// if there is no such row; each column then shows the plain pixel.
pub(crate) fn source_row<'a>(view: &View<'a>, still: Still, y: u16) -> Option<&'a [u8]>
    requires row { y < view.now.size.height }
    requires names { ShowsConfigured (length view.now.prev.now) still }
    ensures value { (pictures : Pictures) (x : ℕ) → ArePictures pictures view.now.prev.now view.now.media.now → x < view.now.size.width →
        MatchOption result (still_pixel pictures view.now.size still x y ≡ plain_pixel still)
        (λ source. still_pixel pictures view.now.size still x y ≡ scaled_pixel source.now view.now.size.width x) }
    ensures picture { IfSome result (λ source. IsPicture source.now) }
{
    match still {
        Still::Nothing | Still::Colour(_) => None,
        Still::Frame(id, frame) => {
            let clip = view.media.clip(id)?;
            clip_row(clip, frame, view.size.height, y)
        }
        Still::Channel(channel) => {
            let size = view.prev.size(channel);
            Some(picture_row(view.prev.bytes(channel), 0, size, view.size.height, y))
        }
    }
}

/// Returns the row of a frame of a clip that row `y` of a raster of `height` rows shows, and `None` if the clip has no such
/// frame.
fn clip_row(clip: &Clip, frame: u32, height: u16, y: u16) -> Option<&[u8]>
    requires row { y < height }
    requires version { clip.now.version ≡ MULTIPLIED }
    requires clip { IsLowered clip.now }
    ensures value { (width x : ℕ) → x < width →
        let pixel = clip_pixel clip.now frame (scaled_to clip.now.geometry.width width x) (scaled_to clip.now.geometry.height height y) in
        MatchOption result (pixel ≡ transparent) (λ source. pixel ≡ scaled_pixel source.now width x) }
    ensures picture { IfSome result (λ source. IsPicture source.now) }
{
    if frame >= clip.frames() {
        return None;
    }
    let size = clip.geometry();
    let start = u64::from(frame) * size.frame_bytes();
    Some(picture_row(clip.bytes(), start as usize, size, height, y))
}

/// Returns the row of a picture, whose pixels begin at byte `start`, that row `y` of a raster of `height` rows shows.
fn picture_row(bytes: &[u8], start: usize, size: Geometry, height: u16, y: u16) -> &[u8]
    requires row { y < height }
    requires size { IsSize size.width size.height size.pairs }
    requires whole { start + 4 * size.width * size.height ≤ length bytes.now }
    requires some { start < 2 ^ 62 }
    ensures { result.now ≡ take (4 * size.width) (drop (start + 4 * (scaled_to size.height height y * size.width)) bytes.now) }
{
    let width = usize::from(size.width);
    let at = start + 4 * (scaled_row(size.height, height, y) * width);
    &bytes[at..at + 4 * width]
}

/// Returns the row of a picture of `rows` rows that row `y` of a raster of `height` rows shows.
fn scaled_row(rows: u16, height: u16, y: u16) -> usize
    requires row { y < height }
    requires some { 0 < rows }
    ensures value { result ≡ scaled_to rows height y }
    ensures range { result < rows }
{
    let at = (2 * u64::from(y) + 1) * u64::from(rows) / (2 * u64::from(height));
    at as usize
}

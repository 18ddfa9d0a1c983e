//! A pixel of a scene, by the steps of the definition: a still, the transition of a layer, its place in the frame, and the layers
//! over one another. The programs make whole rows instead, in `row_render`.
ghost use Rattle.std.specs.Prelude.{◌≡◌, ◌+◌, ◌*◌, ◌<◌, ◌⊎◌, ◌^◌, Some, length, slice_index, All};
ghost use Rattle.play_types.specs.Scene.{IsDrawn, NamesConfigured, ShowsConfigured};
ghost use Rattle.play_types.specs.declared.clip.TheConstants.{MULTIPLIED};
ghost use Rattle.history_model.specs.pictures.Frame.{layer_pixel, scene_pixel};
ghost use Rattle.history_model.specs.pictures.Media.{pixel_of_bytes};
ghost use Rattle.history_model.specs.pictures.Raster.{Pictures, raster_pixel, scaled_clip, scaled_to, still_pixel};
ghost use Rattle.play_scene.specs.Frames.{ArePictures};
ghost use Rattle.play_scene.specs.inner.Keying.{keyed_by};

use crate::frames::Frames;
use crate::placing::visible_column;
use clip_format::MediaTable;
use pixel_math::{Pixel, fade, key, mix, over};
use play_transitions::{Column, pick};
use play_types::{Clip, Drawn, Geometry, Scene, Still};

/// The size of a frame, and the frames of the tick before and the clips that its layers show.
#[derive(Drop)]
struct View<'a> {
    size: Geometry,
    prev: &'a Frames,
    media: &'a MediaTable,
}

/// Returns the pixel at column `x` and row `y` of a frame of this size that shows a scene, by the frames of the tick before and the
/// clips: its layers over one another, each with its transition, its fill, its clip and its opacity. A keyer is not shown; the next
/// layer above it, unless that is a keyer too, is keyed by its red. The channels whose frames the scene shows are configured.
pub fn pixel(
    scene: &Scene,
    size: Geometry,
    prev: &Frames,
    media: &MediaTable,
    x: u16,
    y: u16,
) -> Pixel
    requires column { x < size.width }
    requires row { y < size.height }
    requires names { All (NamesConfigured (length prev.now)) scene.now }
    ensures { (pictures : Pictures) → ArePictures pictures prev.now media.now →
        result ≡ scene_pixel pictures size scene.now x y }
{
    let view = View { size, prev, media };
    let mut pixel = Pixel::transparent();
    let mut keyer = None;
    for layer in scene.drawn() {
        let placed = placed_pixel(&view, layer, x, y);
        if layer.keyer {
            keyer = Some(placed.r());
        } else {
            pixel = over(keyed(placed, keyer), pixel);
            keyer = None;
        }
    }
    pixel
}

/// Returns the pixel keyed by the red of a keyer, and as it is if there is no keyer.
fn keyed(pixel: Pixel, keyer: Option<u8>) -> Pixel
    ensures { result ≡ keyed_by pixel keyer }
{
    match keyer {
        Some(red) => key(pixel, red),
        None => pixel,
    }
}

/// Returns the pixel of a layer that is laid into the frame: the pixel of its raster that its fill brings there, at its opacity, and
/// transparent if its clip does not keep the place or its fill does not reach it.
fn placed_pixel(view: &View, layer: &Drawn, x: u16, y: u16) -> Pixel
    requires column { x < view.now.size.width }
    requires row { y < view.now.size.height }
    requires range { IsDrawn layer.now }
    requires names { NamesConfigured (length view.now.prev.now) layer.now }
    ensures { (pictures : Pictures) → ArePictures pictures view.now.prev.now view.now.media.now →
        result ≡ layer_pixel pictures view.now.size x y layer.now }
{
    let (size, fill, clip) = (view.size, layer.fill, layer.clip);
    let across = visible_column(size.width, (fill[0], fill[2]), (clip[0], clip[2]), x);
    let down = visible_column(size.height, (fill[1], fill[3]), (clip[1], clip[3]), y);
    let Some(column) = across else {
        return Pixel::transparent();
    };
    let Some(row) = down else {
        return Pixel::transparent();
    };
    let pixel = raster_pixel(view, layer, column, row);
    fade(pixel, layer.opacity as u32)
}

/// Returns the pixel of the raster of a layer: that of its new picture, or, while its transition runs, what the transition shows at
/// that column of its old and of its new picture.
fn raster_pixel(view: &View, layer: &Drawn, x: u16, y: u16) -> Pixel
    requires column { x < view.now.size.width }
    requires row { y < view.now.size.height }
    requires step { (0 < layer.now.step) ⊎ (layer.now.trans.duration ≡ 0) }
    requires names { NamesConfigured (length view.now.prev.now) layer.now }
    ensures { (pictures : Pictures) → ArePictures pictures view.now.prev.now view.now.media.now →
        result ≡ raster_pixel pictures view.now.size layer.now x y }
{
    let (trans, step) = (layer.trans, layer.step);
    let (duration, width) = (trans.duration(), view.size.width);
    if step >= duration {
        return still_pixel(view, layer.still, x, y);
    }
    match pick(trans.kind(), trans.leftward(), step, duration, width, x) {
        Column::Old(column) => still_pixel(view, layer.old, column, y),
        Column::New(column) => still_pixel(view, layer.still, column, y),
        Column::Both(column) => {
            let old = still_pixel(view, layer.old, column, y);
            let new = still_pixel(view, layer.still, column, y);
            mix(old, new, step, duration)
        }
    }
}

/// Returns the pixel of a raster that shows a still.
fn still_pixel(view: &View, still: Still, x: u16, y: u16) -> Pixel
    requires column { x < view.now.size.width }
    requires row { y < view.now.size.height }
    requires names { ShowsConfigured (length view.now.prev.now) still }
    ensures { (pictures : Pictures) → ArePictures pictures view.now.prev.now view.now.media.now →
        result ≡ still_pixel pictures view.now.size still x y }
{
    match still {
        Still::Nothing => Pixel::transparent(),
        Still::Colour(value) => Pixel::colour(value),
        Still::Frame(id, frame) => match view.media.clip(id) {
            Some(clip) => clip_pixel(clip, frame, view.size, x, y),
            None => Pixel::transparent(),
        },
        Still::Channel(channel) => {
            let picture = view.prev.size(channel);
            scaled_pixel(view.prev.bytes(channel), 0, picture, view.size, x, y)
        }
    }
}

/// Returns the pixel of a raster of this size that shows a frame of a clip of version 1: transparent if it has no such frame.
fn clip_pixel(clip: &Clip, frame: u32, size: Geometry, x: u16, y: u16) -> Pixel
    requires version { clip.now.version ≡ MULTIPLIED }
    requires column { x < size.width }
    requires row { y < size.height }
    ensures { result ≡ scaled_clip (Some clip.now) frame size x y }
{
    if frame >= clip.frames() {
        return Pixel::transparent();
    }
    let picture = clip.geometry();
    let start = u64::from(frame) * picture.frame_bytes();
    scaled_pixel(clip.bytes(), start, picture, size, x, y)
}

/// Returns the pixel of a raster of this size that shows a picture, whose pixels begin at byte `start`.
fn scaled_pixel(
    bytes: &[u8],
    start: u64,
    picture: Geometry,
    size: Geometry,
    x: u16,
    y: u16,
) -> Pixel
    requires start { start < 2 ^ 61 }
    requires column { x < size.width }
    requires row { y < size.height }
    ensures { result ≡ pixel_of_bytes bytes.now
        (start + 4 * (scaled_to picture.height size.height y * picture.width + scaled_to picture.width size.width x)) }
{
    let column = scaled_to(picture.width, size.width, x);
    let row = scaled_to(picture.height, size.height, y);
    let at = start + 4 * (row * u64::from(picture.width) + column);
    pixel_at(bytes, at as usize)
}

/// Returns the column of a picture of `columns` columns that column `x` of a raster of `width` columns shows, and in the same way a
/// row by numbers of rows.
fn scaled_to(columns: u16, width: u16, x: u16) -> u64
    requires { 0 < width }
    ensures value { result ≡ scaled_to columns width x }
    ensures bound { result < 2 ^ 33 }
{
    (2 * u64::from(x) + 1) * u64::from(columns) / (2 * u64::from(width))
}

/// Returns the pixel of the four bytes from this place on.
fn pixel_at(bytes: &[u8], at: usize) -> Pixel
    requires { at < 2 ^ 63 }
    ensures { result ≡ pixel_of_bytes bytes.now at }
{
    Pixel::lowered(
        byte_at(bytes, at),
        byte_at(bytes, at + 1),
        byte_at(bytes, at + 2),
        byte_at(bytes, at + 3),
    )
}

/// Returns the byte at a place, and 0 past the end.
fn byte_at(bytes: &[u8], at: usize) -> u8
    ensures { result ≡ slice_index bytes.now at }
{
    bytes.get(at).copied().unwrap_or(0)
}

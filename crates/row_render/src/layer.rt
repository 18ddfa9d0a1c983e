//! The row of a layer.
ghost use Rattle.std.specs.Prelude.{◌≡◌, ℕ, ◌*◌, ◌<◌, true, length};
ghost use Rattle.play_types.specs.Scene.{IsDrawn, NamesConfigured};
ghost use Rattle.pixel_math.specs.Pixel.{transparent};
ghost use Rattle.history_model.specs.pictures.Frame.{layer_pixel};
ghost use Rattle.history_model.specs.pictures.Raster.{Pictures, raster_pixel};
ghost use Rattle.play_scene.specs.Frames.{ArePictures};
ghost use Rattle.lane_blend.specs.Rows.{AreLowered, IsRow};
ghost use Rattle.row_render.specs.inner.Rasters.{placed_at};

use crate::kept::Kept;
use crate::placing::{keeps_columns, place_row};
use crate::raster::{is_clear_raster, raster_row};
use crate::view::View;
use lane_blend::fill_row;
use pixel_math::Pixel;
use play_scene::visible_column;
use play_types::{Drawn, MICROS_PER_UNIT};

/// Returns whether a layer, laid into the frame, shows nothing in the row: its opacity is 0, its raster is transparent, or its
/// fill and clip bring no row of it there.
pub(crate) fn shows_nothing(view: &View, layer: &Drawn) -> bool
    requires range { IsDrawn layer.now }
    ensures { result ≡ true → (pictures : Pictures) (x : ℕ) → layer_pixel pictures view.now.size x view.now.y layer.now ≡ transparent }
{
    if layer.opacity == 0 {
        return true;
    }
    if is_clear_raster(layer) {
        return true;
    }
    let (fill, clip) = (layer.fill, layer.clip);
    let line = visible_column(
        view.size.height,
        (fill[1], fill[3]),
        (clip[1], clip[3]),
        view.y,
    );
    line.is_none()
}

/// Writes the row of a layer, laid into the frame: the row of its raster that its fill brings there, at its opacity, and transparent
/// where its clip does not keep the place or its fill does not reach it. `spare` is scratch space for two rows.
pub(crate) fn layer_row(
    view: &View,
    layer: &Drawn,
    row: &mut [u8],
    spare: &mut [u8],
    kept: &mut Kept,
)
    requires line { view.now.y < view.now.size.height }
    requires range { IsDrawn layer.now }
    requires names { NamesConfigured (length view.now.prev.now) layer.now }
    requires row { length row.old ≡ 4 * view.now.size.width }
    requires spare { length spare.old ≡ 2 * length row.old }
    ensures row { (pictures : Pictures) → ArePictures pictures view.now.prev.now view.now.media.now →
        IsRow view.now.size.width (λ x. layer_pixel pictures view.now.size x view.now.y layer.now) row.new }
    ensures lowered { AreLowered row.new }
{
    let (fill, clip) = (layer.fill, layer.clip);
    let line = visible_column(
        view.size.height,
        (fill[1], fill[3]),
        (clip[1], clip[3]),
        view.y,
    );
    let Some(line) = line else {
        fill_row(Pixel::transparent(), row);
        return;
    };
    placed_row(view, layer, line, row, spare, kept);
    if layer.opacity != MICROS_PER_UNIT {
        kept.fade_row(row, layer.opacity as u32);
    }
}

/// Writes row `y` of the raster of a layer, laid into the row of the frame by its fill and clip.
fn placed_row(view: &View, layer: &Drawn, y: u16, row: &mut [u8], spare: &mut [u8], kept: &mut Kept)
    requires line { y < view.now.size.height }
    requires range { IsDrawn layer.now }
    requires names { NamesConfigured (length view.now.prev.now) layer.now }
    requires row { length row.old ≡ 4 * view.now.size.width }
    requires spare { length spare.old ≡ 2 * length row.old }
    ensures row { (pictures : Pictures) → ArePictures pictures view.now.prev.now view.now.media.now →
        IsRow view.now.size.width (placed_at layer.now view.now.size.width (λ x. raster_pixel pictures view.now.size layer.now x y)) row.new }
    ensures lowered { AreLowered row.new }
{
    let (raster, other) = spare.split_at_mut(row.len());
    if keeps_columns(layer) {
        raster_row(view, layer, y, row, other, kept);
    } else {
        raster_row(view, layer, y, raster, other, kept);
        place_row(layer, raster, view.size.width, row);
    }
}

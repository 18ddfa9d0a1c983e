//! Where the row of a raster lies in the row of the frame.
ghost use Rattle.std.specs.Prelude.{◌≡◌, ℕ, ◌+◌, ◌*◌, ◌/◌, ◌<◌, ◌≤◌, ◌⊎◌, ◌^◌, pos, ◌<ℤ◌, None, Some, true, length};
ghost use Rattle.play_types.specs.Scene.{IsDrawn};
ghost use Rattle.play_types.specs.Setting.{number_at};
ghost use Rattle.history_model.specs.pictures.Placing.{visible_column};
ghost use Rattle.lane_blend.specs.Rows.{AreLowered, IsRow, pixel_at, width_of};
ghost use Rattle.row_render.specs.inner.Rasters.{placed_at};

use crate::columns::{clear_pixel, copy_pixel};
use crate::scaling::gather_row;
use crate::shown::{ShownRun, shown_run};
use lane_blend::fill_row;
use pixel_math::Pixel;
use play_scene::visible_column;
use play_types::{Drawn, MICROS_PER_UNIT};

/// Returns whether the fill and the clip of a layer leave every column in its place.
pub(crate) fn keeps_columns(layer: &Drawn) -> bool
    ensures { result ≡ true → (width x : ℕ) → x < width → visible_column width layer.now.fill layer.now.clip 0 x ≡ Some x }
{
    let whole = (0, MICROS_PER_UNIT);
    (layer.fill[0], layer.fill[2]) == whole && (layer.clip[0], layer.clip[2]) == whole
}

/// Returns whether the fill and the clip of a layer leave every row in its place.
pub(crate) fn keeps_rows(layer: &Drawn) -> bool
    ensures { result ≡ true → (height y : ℕ) → y < height → visible_column height layer.now.fill layer.now.clip 1 y ≡ Some y }
{
    let whole = (0, MICROS_PER_UNIT);
    (layer.fill[1], layer.fill[3]) == whole && (layer.clip[1], layer.clip[3]) == whole
}

/// Returns columns of a frame of `width` columns outside of which a layer shows nothing: from the first number up to before the
/// second.
pub(crate) fn shown_columns(layer: &Drawn, width: u16) -> (u16, u16)
    requires range { IsDrawn layer.now }
    ensures order { result.0 ≤ result.1 }
    ensures inside { result.1 ≤ width }
    ensures hidden { (x : ℕ) → x < width → (x < result.0) ⊎ (result.1 ≤ x) → visible_column width layer.now.fill layer.now.clip 0 x ≡ None }
{
    let (fill, clip) = (layer.fill, layer.clip);
    if fill[2] <= 0 {
        return (0, width);
    }
    match shown_run(width, (fill[0], fill[2]), (clip[0], clip[2])) {
        Some(run) => (run.from, run.to),
        None => (0, 0),
    }
}

/// Lays the row of a raster into the row of the frame by a layer's fill and clip. Where they show no column of the raster, the row
/// is transparent.
pub(crate) fn place_row(layer: &Drawn, raster: &[u8], width: u16, row: &mut [u8])
    requires range { IsDrawn layer.now }
    requires raster { length raster.now ≡ 4 * width }
    requires lowered { AreLowered raster.now }
    requires row { length row.old ≡ 4 * width }
    ensures row { IsRow width (placed_at layer.now width (pixel_at raster.now)) row.new }
    ensures lowered { AreLowered row.new }
{
    if layer.fill[2] > 0 {
        place_run(layer, raster, width, row);
    } else {
        place_columns(layer, raster, width, row);
    }
}

/// Lays the row of a raster into the row of the frame if the width of the layer's fill is above 0: a run of columns, whose raster
/// columns are found by adding.
fn place_run(layer: &Drawn, raster: &[u8], width: u16, row: &mut [u8])
    requires range { IsDrawn layer.now }
    requires upright { pos 0 <ℤ number_at layer.now.fill 2 }
    requires raster { length raster.now ≡ 4 * width }
    requires lowered { AreLowered raster.now }
    requires row { length row.old ≡ 4 * width }
    ensures row { IsRow width (placed_at layer.now width (pixel_at raster.now)) row.new }
    ensures lowered { AreLowered row.new }
{
    let (fill, clip) = (layer.fill, layer.clip);
    fill_row(Pixel::transparent(), row);
    let Some(run) = shown_run(width, (fill[0], fill[2]), (clip[0], clip[2])) else {
        return;
    };
    gather_run(run, raster, row);
}

/// Writes the columns of a run: those of a raster that the run shows.
fn gather_run(run: ShownRun, raster: &[u8], row: &mut [u8])
    requires order { run.from ≤ run.to }
    requires inside { 4 * run.to ≤ length row.old }
    requires some { 0 < run.divisor }
    requires divisor { run.divisor < 2 ^ 60 }
    requires few { length raster.now < 2 ^ 30 }
    requires within { (i : ℕ) → run.from + i < run.to → (run.number + i * 2000000) / run.divisor < width_of raster.now }
    ensures there { (i : ℕ) → run.from + i < run.to →
        pixel_at row.new (run.from + i) ≡ pixel_at raster.now ((run.number + i * 2000000) / run.divisor) }
    ensures others { (x : ℕ) → (x < run.from) ⊎ (run.to ≤ x) → pixel_at row.new x ≡ pixel_at row.old x }
{
    let from = 4 * usize::from(run.from);
    let to = 4 * usize::from(run.to);
    gather_row(
        raster,
        run.number,
        2_000_000,
        run.divisor,
        &mut row[from..to],
    );
}

/// Lays the row of a raster into the row of the frame column by column, as for a fill that mirrors the raster.
fn place_columns(layer: &Drawn, raster: &[u8], width: u16, row: &mut [u8])
    requires range { IsDrawn layer.now }
    requires raster { length raster.now ≡ 4 * width }
    requires lowered { AreLowered raster.now }
    requires row { length row.old ≡ 4 * width }
    ensures row { IsRow width (placed_at layer.now width (pixel_at raster.now)) row.new }
    ensures lowered { AreLowered row.new }
{
    let (fill, clip) = (layer.fill, layer.clip);
    for x in 0..width {
        match visible_column(width, (fill[0], fill[2]), (clip[0], clip[2]), x) {
            Some(column) => copy_pixel(raster, usize::from(column), row, usize::from(x)),
            None => clear_pixel(row, usize::from(x)),
        }
    }
}

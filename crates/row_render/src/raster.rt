//! The row of a layer's raster.
ghost use Rattle.std.specs.Prelude.{◌≡◌, ℕ, ◌+◌, ◌*◌, ◌%◌, ◌<◌, ◌≤◌, ◌⊎◌, true, length, All};
ghost use Rattle.std.specs.Option.{option_to_list};
ghost use Rattle.play_types.specs.Scene.{NamesConfigured, ShowsConfigured};
ghost use Rattle.play_types.specs.declared.geometry.Geometry.{Geometry as GeometryView};
ghost use Rattle.play_transitions.specs.Column.{column_view};
ghost use Rattle.play_transitions.specs.Runs.{number_of, raised, run_column};
ghost use Rattle.pixel_math.specs.Pixel.{transparent};
ghost use Rattle.history_model.specs.pictures.Raster.{Pictures, raster_pixel, still_pixel};
ghost use Rattle.play_scene.specs.Frames.{ArePictures};
ghost use Rattle.lane_blend.specs.Rows.{AreLowered, IsRow, pixel_at, width_of};
ghost use Rattle.row_render.specs.inner.Rasters.{IsOutside, IsRunOf, moving_pixel};

use crate::kept::Kept;
use crate::source::{is_clear, plain_pixel, source_row};
use crate::view::View;
use lane_blend::fill_row;
use pixel_math::Pixel;
use play_transitions::{Column, Run, runs};
use play_types::{Drawn, Still};

/// Returns whether the raster of a layer is transparent, whatever the clips and the frames of the channels show: its new still
/// is, and, while the transition runs, its old one too.
pub(crate) fn is_clear_raster(layer: &Drawn) -> bool
    ensures { result ≡ true → (pictures : Pictures) (size : GeometryView) (x y : ℕ) → raster_pixel pictures size layer.now x y ≡ transparent }
{
    if !is_clear(layer.still) {
        return false;
    }
    layer.step >= layer.trans.duration() || is_clear(layer.old)
}

/// Writes row `y` of the raster of a layer: that of its new picture, or, while the transition runs, what it shows of its new and of
/// its old picture. `other` is scratch space for one row.
pub(crate) fn raster_row(
    view: &View,
    layer: &Drawn,
    y: u16,
    row: &mut [u8],
    other: &mut [u8],
    kept: &mut Kept,
)
    requires line { y < view.now.size.height }
    requires step { (0 < layer.now.step) ⊎ (layer.now.trans.duration ≡ 0) }
    requires names { NamesConfigured (length view.now.prev.now) layer.now }
    requires row { length row.old ≡ 4 * view.now.size.width }
    requires other { length other.old ≡ 4 * view.now.size.width }
    ensures row { (pictures : Pictures) → ArePictures pictures view.now.prev.now view.now.media.now →
        IsRow view.now.size.width (λ x. raster_pixel pictures view.now.size layer.now x y) row.new }
    ensures lowered { AreLowered row.new }
{
    let (trans, step) = (layer.trans, layer.step);
    if step >= trans.duration() {
        still_columns(view, layer.still, y, 0, row, kept);
        return;
    }
    fill_row(Pixel::transparent(), row);
    let pair = runs(
        trans.kind(),
        trans.leftward(),
        step,
        trans.duration(),
        view.size.width,
    );
    run_columns(pair.first, view, layer, y, row, other, kept);
    run_columns(pair.second, view, layer, y, row, other, kept);
}

/// Writes the columns of a run of a transition, if there is one.
fn run_columns(
    run: Option<Run>,
    view: &View,
    layer: &Drawn,
    y: u16,
    row: &mut [u8],
    other: &mut [u8],
    kept: &mut Kept,
)
    requires line { y < view.now.size.height }
    requires after { 0 < layer.now.step }
    requires before { layer.now.step < layer.now.trans.duration }
    requires names { NamesConfigured (length view.now.prev.now) layer.now }
    requires row { length row.old ≡ 4 * view.now.size.width }
    requires other { length other.old ≡ 4 * view.now.size.width }
    requires run { All (IsRunOf view.now.size.width) (option_to_list run) }
    requires lowered { AreLowered row.old }
    ensures there { (pictures : Pictures) → ArePictures pictures view.now.prev.now view.now.media.now →
        All (λ run. (x : ℕ) → run.from ≤ x → x < run.to →
        pixel_at row.new x ≡ moving_pixel pictures view.now.size layer.now y (run_column run x)) (option_to_list run) }
    ensures others { (x : ℕ) → All (IsOutside x) (option_to_list run) → pixel_at row.new x ≡ pixel_at row.old x }
    ensures lowered { AreLowered row.new }
{
    if let Some(run) = run {
        let (from, to) = (4 * usize::from(run.from), 4 * usize::from(run.to));
        moving_row(
            run.column,
            view,
            layer,
            y,
            &mut row[from..to],
            &mut other[from..to],
            kept,
        );
    }
}

/// Writes the columns of a transition from `column` on: those of one picture, or the mix of both.
fn moving_row(
    column: Column,
    view: &View,
    layer: &Drawn,
    y: u16,
    row: &mut [u8],
    other: &mut [u8],
    kept: &mut Kept,
)
    requires line { y < view.now.size.height }
    requires after { 0 < layer.now.step }
    requires before { layer.now.step < layer.now.trans.duration }
    requires names { NamesConfigured (length view.now.prev.now) layer.now }
    requires whole { length row.old % 4 ≡ 0 }
    requires other { length other.old ≡ length row.old }
    requires fits { number_of (column_view column) + width_of row.old ≤ view.now.size.width }
    ensures row { (pictures : Pictures) → ArePictures pictures view.now.prev.now view.now.media.now →
        IsRow (width_of row.old) (λ i. moving_pixel pictures view.now.size layer.now y (raised (column_view column) i)) row.new }
    ensures lowered { AreLowered row.new }
{
    match column {
        Column::Old(first) => still_columns(view, layer.old, y, first, row, kept),
        Column::New(first) => still_columns(view, layer.still, y, first, row, kept),
        Column::Both(first) => {
            still_columns(view, layer.old, y, first, row, kept);
            still_columns(view, layer.still, y, first, other, kept);
            kept.mix_row(other, row, layer.step, layer.trans.duration());
        }
    }
}

/// Writes row `y` of a raster that shows a still, from column `first` on.
fn still_columns(view: &View, still: Still, y: u16, first: u16, row: &mut [u8], kept: &mut Kept)
    requires line { y < view.now.size.height }
    requires names { ShowsConfigured (length view.now.prev.now) still }
    requires whole { length row.old % 4 ≡ 0 }
    requires fits { first + width_of row.old ≤ view.now.size.width }
    ensures row { (pictures : Pictures) → ArePictures pictures view.now.prev.now view.now.media.now →
        IsRow (width_of row.old) (λ i. still_pixel pictures view.now.size still (first + i) y) row.new }
    ensures lowered { AreLowered row.new }
{
    match source_row(view, still, y) {
        Some(source) => kept.scale_columns(still, source, view.size.width, first, row),
        None => fill_row(plain_pixel(still), row),
    }
}

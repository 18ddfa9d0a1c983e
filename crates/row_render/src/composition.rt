//! The rows of layers over one another.
ghost use Rattle.std.specs.Prelude.{◌≡◌, ◌∷◌, ℕ, ◌*◌, ◌%◌, ◌<◌, ◌≤◌, ◌⊎◌, false, List, length, All};
ghost use Rattle.play_types.specs.Scene.{IsDrawn, NamesConfigured};
ghost use Rattle.play_types.specs.declared.drawn.Drawn.{Drawn as DrawnView};
ghost use Rattle.history_model.specs.pictures.Frame.{composed_pixel, layer_pixel, scene_pixel};
ghost use Rattle.history_model.specs.pictures.Raster.{Pictures};
ghost use Rattle.play_scene.specs.Frames.{ArePictures};
ghost use Rattle.lane_blend.specs.Rows.{AreLowered, IsRow, pixel_at, width_of};
ghost use Rattle.row_render.specs.inner.Keying.{IsLaid, Keys, keyed_pixel_by};
ghost use Rattle.pixel_math.specs.Pixel.{PixelView, transparent};
ghost use Rattle.pixel_math.specs.Arithmetic.{over};

use crate::covering::hidden_layers;
use crate::kept::Kept;
use crate::layer::{layer_row, shows_nothing};
use crate::placing::shown_columns;
use crate::view::View;
use lane_blend::{fill_row, key_row, over_row};
use pixel_math::Pixel;
use play_types::{Drawn, Scene};

/// Writes the row of a scene: its layers over one another, each keyed by the keyer right below it. `spare` is scratch space for four
/// rows.
pub(crate) fn compose_row(
    view: &View,
    scene: &Scene,
    row: &mut [u8],
    spare: &mut [u8],
    kept: &mut Kept,
)
    requires line { view.now.y < view.now.size.height }
    requires names { All (NamesConfigured (length view.now.prev.now)) scene.now }
    requires row { length row.old ≡ 4 * view.now.size.width }
    requires spare { length spare.old ≡ 4 * length row.old }
    ensures row { (pictures : Pictures) → ArePictures pictures view.now.prev.now view.now.media.now →
        IsRow view.now.size.width (λ x. scene_pixel pictures view.now.size scene.now x view.now.y) row.new }
    ensures lowered { AreLowered row.new }
{
    let layers = scene.drawn();
    let hidden = hidden_layers(view, layers);
    lay_layers(view, &layers[hidden..], row, spare, kept);
}

/// Writes the row of layers over one another, each keyed by the keyer right below it. `spare` is scratch space for four rows.
fn lay_layers(view: &View, layers: &[Drawn], row: &mut [u8], spare: &mut [u8], kept: &mut Kept)
    requires line { view.now.y < view.now.size.height }
    requires range { All IsDrawn layers.now }
    requires names { All (NamesConfigured (length view.now.prev.now)) layers.now }
    requires row { length row.old ≡ 4 * view.now.size.width }
    requires spare { length spare.old ≡ 4 * length row.old }
    ensures row { (pictures : Pictures) → ArePictures pictures view.now.prev.now view.now.media.now →
        IsRow view.now.size.width (λ x. scene_pixel pictures view.now.size layers.now x view.now.y) row.new }
    ensures lowered { AreLowered row.new }
{
    let (keys, spare) = spare.split_at_mut(row.len());
    let mut below = Below {
        blank: true,
        keyed: false,
    };
    for layer in layers {
        let blank = lay_layer(view, layer, below, row, keys, spare, kept);
        below = Below {
            blank,
            keyed: layer.keyer,
        };
    }
    clear_blank(row, below.blank);
}

/// What the layers so far leave: whether none of them shows anything, so that the row is not written yet, and whether the row of
/// keys keys the next layer.
#[derive(Clone, Copy, Drop)]
struct Below {
    blank: bool,
    keyed: bool,
}

/// Makes a row that is not written yet transparent.
fn clear_blank(row: &mut [u8], blank: bool)
    requires whole { length row.old % 4 ≡ 0 }
    requires lowered { blank ≡ false → AreLowered row.old }
    ensures row { (pixel : ℕ → PixelView) → IsLaid blank (width_of row.old) pixel row.old → IsRow (width_of row.old) pixel row.new }
    ensures lowered { AreLowered row.new }
{
    if blank {
        fill_row(Pixel::transparent(), row);
    }
}

/// Lays the row of a layer over the row of the layers below, keyed by the row of keys if it is keyed. If the row is not written yet,
/// the layer's row is written there. The row of a keyer becomes the row of keys instead, and a layer that shows nothing in the row
/// leaves it as it is. Returns whether the row is still not written. `spare` is scratch space for three rows.
fn lay_layer(
    view: &View,
    layer: &Drawn,
    below: Below,
    row: &mut [u8],
    keys: &mut [u8],
    spare: &mut [u8],
    kept: &mut Kept,
) -> bool
    requires line { view.now.y < view.now.size.height }
    requires range { IsDrawn layer.now }
    requires names { NamesConfigured (length view.now.prev.now) layer.now }
    requires row { length row.old ≡ 4 * view.now.size.width }
    requires keys { length keys.old ≡ length row.old }
    requires spare { length spare.old ≡ 3 * length row.old }
    requires lowered { below.blank ≡ false → AreLowered row.old }
    ensures row { (pictures : Pictures) (layers : List DrawnView) → ArePictures pictures view.now.prev.now view.now.media.now →
        Keys (λ x. layer_pixel pictures view.now.size x view.now.y) view.now.size.width layers below.keyed keys.old →
        IsLaid below.blank view.now.size.width (λ x. composed_pixel (layer_pixel pictures view.now.size x view.now.y) layers) row.old →
        IsLaid result view.now.size.width (λ x. composed_pixel (layer_pixel pictures view.now.size x view.now.y) (layer.now ∷ layers)) row.new }
    ensures keys { (pictures : Pictures) (layers : List DrawnView) → ArePictures pictures view.now.prev.now view.now.media.now →
        Keys (λ x. layer_pixel pictures view.now.size x view.now.y) view.now.size.width (layer.now ∷ layers) layer.now.keyer keys.new }
    ensures lowered { result ≡ false → AreLowered row.new }
{
    let (upper, rest) = spare.split_at_mut(row.len());
    if layer.keyer {
        layer_row(view, layer, keys, rest, kept);
        return below.blank;
    }
    if shows_nothing(view, layer) {
        return below.blank;
    }
    if below.blank {
        layer_row(view, layer, row, rest, kept);
        key_by(row, keys, below.keyed);
        return false;
    }
    layer_row(view, layer, upper, rest, kept);
    let (from, to) = shown_columns(layer, view.size.width);
    lay_columns(from, to, upper, keys, below.keyed, row);
    false
}

/// Lays the columns from `from` up to before `to` of the row `upper` over those of a row, keyed by the row of keys if `keyed` is
/// true. If the other columns of `upper` are transparent, all of `upper` is laid over the row so.
fn lay_columns(from: u16, to: u16, upper: &mut [u8], keys: &[u8], keyed: bool, row: &mut [u8])
    requires order { from ≤ to }
    requires inside { 4 * to ≤ length row.old }
    requires upper { length upper.old ≡ length row.old }
    requires keys { length keys.now ≡ length row.old }
    requires whole { length row.old % 4 ≡ 0 }
    requires lowered_upper { AreLowered upper.old }
    requires lowered_row { AreLowered row.old }
    ensures row { ((x : ℕ) → x < width_of row.old → (x < from) ⊎ (to ≤ x) → pixel_at upper.old x ≡ transparent) →
        IsRow (width_of row.old) (λ x. over (keyed_pixel_by keyed (pixel_at upper.old x) (pixel_at keys.now x)) (pixel_at row.old x)) row.new }
    ensures lowered { AreLowered row.new }
{
    let from = 4 * usize::from(from);
    let to = 4 * usize::from(to);
    key_by(&mut upper[from..to], &keys[from..to], keyed);
    over_row(&upper[from..to], &mut row[from..to]);
}

/// Keys a row by the red of a row of keys if `keyed` is true.
fn key_by(row: &mut [u8], keys: &[u8], keyed: bool)
    requires lengths { length keys.now ≡ length row.old }
    requires whole { length row.old % 4 ≡ 0 }
    requires lowered { AreLowered row.old }
    ensures row { IsRow (width_of row.old) (λ i. keyed_pixel_by keyed (pixel_at row.old i) (pixel_at keys.now i)) row.new }
    ensures lowered { AreLowered row.new }
{
    if keyed {
        key_row(row, keys);
    }
}

//! Layers that hide all layers below them.
ghost use Rattle.std.specs.Prelude.{◌≡◌, ℕ, ◌<◌, ◌≤◌, Some, false, true, length, drop, reverse, All};
ghost use Rattle.play_types.specs.Scene.{IsDrawn};
ghost use Rattle.history_model.specs.pictures.Frame.{composed_pixel, layer_pixel, scene_pixel};
ghost use Rattle.history_model.specs.pictures.Placing.{visible_column};
ghost use Rattle.history_model.specs.pictures.Raster.{Pictures};

use crate::placing::{keeps_columns, keeps_rows};
use crate::source::plain_pixel;
use crate::view::View;
use play_types::{Drawn, MICROS_PER_UNIT};

/// Returns how many of the lowest layers are not seen in the row: those below the highest layer that covers it.
pub(crate) fn hidden_layers(view: &View, layers: &[Drawn]) -> usize
    requires line { view.now.y < view.now.size.height }
    requires range { All IsDrawn layers.now }
    ensures value { (pictures : Pictures) (x : ℕ) → x < view.now.size.width →
        composed_pixel (layer_pixel pictures view.now.size x view.now.y) (reverse (drop result layers.now))
        ≡ scene_pixel pictures view.now.size layers.now x view.now.y }
    ensures range { result ≤ length layers.now }
{
    let mut hidden = 0;
    let mut keyed = false;
    let mut at = 0;
    'layers: while at < layers.len() {
        if covers(view, &layers[at], keyed) {
            hidden = at;
        }
        keyed = layers[at].keyer;
        at += 1;
    }
    hidden
}

/// Returns whether a layer covers the row: it is no keyer and not keyed, and shows an opaque colour at each column.
fn covers(view: &View, layer: &Drawn, keyed: bool) -> bool
    requires line { view.now.y < view.now.size.height }
    requires range { IsDrawn layer.now }
    ensures opaque { result ≡ true → (pictures : Pictures) (x : ℕ) → x < view.now.size.width →
        (layer_pixel pictures view.now.size x view.now.y layer.now).a ≡ 255 }
    ensures shown { result ≡ true → layer.now.keyer ≡ false }
    ensures alone { result ≡ true → keyed ≡ false }
{
    if keyed || layer.keyer {
        return false;
    }
    if layer.opacity != MICROS_PER_UNIT {
        return false;
    }
    if layer.step < layer.trans.duration() {
        return false;
    }
    if !keeps_columns(layer) {
        return false;
    }
    if !keeps_rows(layer) {
        return false;
    }
    plain_pixel(layer.still).a() == 255
}

//! About how long the rows of a scene take to make.
//!
//! A weight says how a row's time compares with that of others, so that threads can be given rows that take about equally long. The
//! numbers were measured. No pixel depends on a weight.
ghost use Rattle.std.specs.Prelude.{◌*◌, ◌<◌, ◌≤◌};
ghost use Rattle.play_types.specs.Geometry.{IsSize};
ghost use Rattle.band_render.specs.inner.Drawing.{IsTick};

use crate::drawing::Tick;
use play_types::{Drawn, Geometry, MICROS_PER_UNIT, Scene, Still};

/// The weight of each pixel of a row that shows nothing or a colour.
const ROW: u64 = 1_000;

/// What a picture of the frame's width adds, since it is read from memory. A narrower one adds less.
const READ: u64 = 1_500;

/// What a layer that is laid over another adds, for each thousandth of the columns that it fills.
const LAID: u64 = 3;

/// What a layer whose opacity is below 1 adds, for each thousandth of the columns that it fills.
const FADED: u64 = 2;

/// What a layer adds during a transition, for each thousandth of the columns that it fills.
const MIXED: u64 = 4;

/// The most that each pixel of a row weighs.
const MOST_OF_A_PIXEL: u64 = 1_000_000;

/// The most that a row weighs: it has at most 4,096 pixels.
pub(crate) const MOST_WEIGHT: u64 = 4_096_000_000;

/// How many rows one below the other are taken to weigh the same.
pub(crate) const ROWS_ALIKE: u16 = 16;

/// Returns the weight of all rows of a frame.
pub(crate) fn frame_weight(tick: &Tick<'_>, scene: &Scene, size: Geometry) -> u64
    requires tick { IsTick tick.now }
    requires size { IsSize size.width size.height size.pairs }
    ensures most { result ≤ MOST_WEIGHT * size.height }
{
    let mut all = 0;
    let mut row = 0;
    for y in 0..size.height {
        if y % ROWS_ALIKE == 0 {
            row = row_weight(tick, scene, size, y);
        }
        all += row;
    }
    all
}

/// Returns the weight of row `y` of a frame.
pub(crate) fn row_weight(tick: &Tick<'_>, scene: &Scene, size: Geometry, y: u16) -> u64
    requires tick { IsTick tick.now }
    requires size { IsSize size.width size.height size.pairs }
    requires row { y < size.height }
    ensures most { result ≤ MOST_WEIGHT }
{
    // The middle of the row, in millionths of a frame and in units of twice its height.
    let middle = (2 * u64::from(y) + 1) * 1_000_000;
    let unit = 2 * u64::from(size.height);
    let mut weight = ROW;
    let mut is_lowest = true;
    for layer in scene.drawn() {
        let (top, bottom) = shown_part(
            (layer.fill[1], layer.fill[3]),
            (layer.clip[1], layer.clip[3]),
        );
        if top * unit <= middle && middle < bottom * unit {
            let read = read_weight(source_width(tick, layer.still), size.width);
            weight = (weight + read + layer_weight(layer, is_lowest)).min(MOST_OF_A_PIXEL);
            is_lowest = false;
        }
    }
    weight * u64::from(size.width)
}

/// Returns what a picture of `source` columns adds to the weight of each pixel of a frame of `width` columns.
fn read_weight(source: u16, width: u16) -> u64
    requires { 0 < width }
    ensures { result ≤ READ }
{
    if source >= width {
        READ
    } else {
        READ * u64::from(source) / u64::from(width)
    }
}

/// Returns how many columns the picture of a still has, and 0 if it has none.
fn source_width(tick: &Tick<'_>, still: Still) -> u16
    requires { IsTick tick.now }
{
    match still {
        Still::Nothing | Still::Colour(_) => 0,
        Still::Frame(id, _) => match tick.media.clip(id) {
            Some(clip) => clip.geometry().width,
            None => 0,
        },
        Still::Channel(channel) => {
            if (1..=tick.scenes.channels()).contains(&channel) {
                tick.prev.size(channel).width
            } else {
                0
            }
        }
    }
}

/// Returns what a layer adds to the weight of each pixel besides reading its picture. The lowest layer is laid over no other.
fn layer_weight(layer: &Drawn, is_lowest: bool) -> u64
    ensures most { result ≤ 9000 }
{
    let (left, right) = shown_part(
        (layer.fill[0], layer.fill[2]),
        (layer.clip[0], layer.clip[2]),
    );
    let part = (right - left) / 1_000;
    let mut weight = 0;
    if !is_lowest {
        weight += LAID * part;
    }
    if layer.opacity < MICROS_PER_UNIT {
        weight += FADED * part;
    }
    if layer.step < layer.trans.duration() {
        weight += MIXED * part;
    }
    weight
}

/// Returns the part of a frame that shows something by the edges and extents of a fill and a clip, in millionths of the frame: from
/// the first number up to before the second, empty if they are equal.
fn shown_part(fill: (i64, i64), clip: (i64, i64)) -> (u64, u64)
    ensures order { result.0 ≤ result.1 }
    ensures range { result.1 ≤ 1000000 }
{
    let edge = fill.0.saturating_add(fill.1);
    let from = fill.0.min(edge).max(clip.0);
    let to = fill.0.max(edge).min(clip.0.saturating_add(clip.1));
    let to = in_frame(to);
    (in_frame(from).min(to), to)
}

/// Returns the place in a frame, in millionths of it, that is nearest to this one.
fn in_frame(place: i64) -> u64
    ensures { result ≤ 1000000 }
{
    place.clamp(0, MICROS_PER_UNIT) as u64
}

//! How the rows of all channels are cut into bands.
ghost use Rattle.std.specs.Prelude.{◌≡◌, ◌+◌, ◌*◌, ◌++◌, ◌<◌, ◌≤◌, ◌^◌, IfOk, false, length, map, min, vec_capacity, vec_len};
ghost use Rattle.play_types.specs.Geometry.{IsSize};
ghost use Rattle.play_types.specs.Scene.{IsConfigured};
ghost use Rattle.band_render.specs.Rendered.{sizes};
ghost use Rattle.band_render.specs.Rows.{byte_count, rows_from, rows_of_bands, rows_of_frames, size_of};
ghost use Rattle.band_render.specs.inner.Drawing.{IsTick};
ghost use Rattle.band_render.specs.Bands.{AreNumbered};
ghost use Rattle.band_render.specs.inner.Numbers.{fewest_bands};

use crate::band::Band;
use crate::drawing::Tick;
use crate::weights::{ROWS_ALIKE, frame_weight, row_weight};
use play_types::{Config, Geometry, Scene};
use std::alloc::{AllocError, Global};

/// How many bands the frames of all channels are cut into for each worker, if they have enough rows.
const BANDS_PER_WORKER: u64 = 16;

/// The most bands of a channel: `BANDS_PER_WORKER` for each of 64 workers.
const MOST_BANDS: usize = 1_024;

/// Returns a band of all rows for each channel of a configuration, in a list with room for the most bands.
pub(crate) fn whole_frames(alloc: Global, config: &Config) -> Result<Vec<Band>, AllocError>
    ensures rows { IfOk result (λ bands. rows_of_bands bands.items ≡ rows_of_frames 1 (map size_of config.now.channels)) }
    ensures small { IfOk result (λ bands. byte_count (rows_of_bands bands.items) < 2 ^ 64) }
    ensures room { IfOk result (λ bands. MOST_BANDS * length config.now.channels ≤ vec_capacity bands) }
{
    let channels = config.channels();
    let mut bands = Vec::with_capacity(alloc, MOST_BANDS * channels.len())?;
    for at in 0..channels.len() {
        let size = channels.get(at).unwrap().geometry();
        push(&mut bands, at as u8 + 1, size, 0, size.height);
    }
    Ok(bands)
}

/// Cuts the frames of a tick into bands for `workers` workers, in place of those in the list. For one worker each channel is one
/// band. For more, each channel has at least as many bands as there are workers, or as it has rows if these are fewer, and more of
/// them the longer its rows take to make. The bands of a channel take about equally long.
pub(crate) fn cut_frames(tick: &Tick<'_>, workers: u16, bands: &mut Vec<Band>)
    requires tick { IsTick tick.now }
    requires some { 1 ≤ workers }
    requires few { workers ≤ 64 }
    requires room { MOST_BANDS * length tick.now.prev.now ≤ vec_capacity bands.old }
    ensures rows { rows_of_bands bands.new.items ≡ rows_of_frames 1 (sizes tick.now.prev.now) }
    ensures numbers { AreNumbered bands.new.items }
    ensures enough { fewest_bands workers (sizes tick.now.prev.now) ≤ vec_len bands.new }
    ensures room { vec_capacity bands.new ≡ vec_capacity bands.old }
{
    bands.clear();
    let all = if workers == 1 { 0 } else { weight_of_all(tick) };
    for at in 0..tick.scenes.channels() {
        let scene = tick.scenes.scene(at + 1);
        let size = tick.prev.size(at + 1);
        let cut = frame_cut(tick, scene, size, all, workers);
        cut_frame(bands, tick, at + 1, size, scene, cut);
    }
}

/// Returns the weight of all rows of the frames of a tick.
fn weight_of_all(tick: &Tick<'_>) -> u64
    requires { IsTick tick.now }
    ensures { result ≤ 2 ^ 52 }
{
    let mut all = 0;
    for at in 0..tick.scenes.channels() {
        all += frame_weight(tick, tick.scenes.scene(at + 1), tick.prev.size(at + 1));
    }
    all
}

/// Returns into how many bands the frame of a channel is cut, if the rows of all frames have the weight `all`.
fn frame_cut(tick: &Tick<'_>, scene: &Scene, size: Geometry, all: u64, workers: u16) -> Cut
    requires tick { IsTick tick.now }
    requires size { IsSize size.width size.height size.pairs }
    requires some { 1 ≤ workers }
    requires few { workers ≤ 64 }
    ensures fitting { result.count ≤ size.height }
    ensures enough { min workers size.height ≤ result.count }
{
    if workers == 1 {
        return Cut {
            count: 1,
            weight: 0,
        };
    }
    Cut::new(frame_weight(tick, scene, size), all, workers, size.height)
}

/// Into how many bands a frame is cut, and the weight of its rows.
#[derive(Clone, Copy)]
struct Cut {
    count: u16,
    weight: u64,
    ghost some: { 1 ≤ count },
    ghost most: { count ≤ 1024 },
    ghost light: { weight ≤ 2 ^ 44 },
}

impl Cut {
    /// Returns into how many bands a frame of `rows` rows is cut, by its part `weight` of the weight `all` of all frames: at least
    /// `workers`, beyond that at most one for each sixteen rows and at most `BANDS_PER_WORKER` for each worker, and never more than
    /// `rows`.
    fn new(weight: u64, all: u64, workers: u16, rows: u16) -> Cut
        requires some { 1 ≤ workers }
        requires few { workers ≤ 64 }
        requires rows { 1 ≤ rows }
        requires light { weight ≤ 2 ^ 44 }
        ensures fitting { result.count ≤ rows }
        ensures enough { min workers rows ≤ result.count }
    {
        let least = u64::from(workers);
        let most = BANDS_PER_WORKER * least;
        let part = weight * most / all.max(1);
        let fitting = u64::from(rows / ROWS_ALIKE).clamp(least, most);
        let count = part.clamp(least, fitting).min(u64::from(rows));
        Cut {
            count: count as u16,
            weight,
        }
    }

    /// Returns whether band `made`, counted from 1, ends above a row. `above` is the weight of all rows above that row, and `left`
    /// is how many rows there are from it on: each later band has at least one.
    fn ends(self, made: u16, above: u64, left: u16) -> bool
        requires few { made ≤ self.count }
        requires light { above ≤ 2 ^ 44 }
        ensures { result ≡ false → self.count < made + left }
    {
        above * u64::from(self.count) >= self.weight * u64::from(made) || left <= self.count - made
    }
}

/// Adds the bands into which the frame of a channel is cut, from the top.
fn cut_frame(
    bands: &mut Vec<Band>,
    tick: &Tick<'_>,
    channel: u8,
    size: Geometry,
    scene: &Scene,
    cut: Cut,
)
    requires tick { IsTick tick.now }
    requires size { IsSize size.width size.height size.pairs }
    requires rows { cut.count ≤ size.height }
    requires few { vec_len bands.old ≤ MOST_BANDS * 255 }
    requires room { vec_len bands.old + MOST_BANDS ≤ vec_capacity bands.old }
    ensures many { vec_len bands.new ≡ vec_len bands.old + cut.count }
    ensures room { vec_capacity bands.new ≡ vec_capacity bands.old }
    ensures rows { rows_of_bands bands.new.items ≡ rows_of_bands bands.old.items ++ rows_from channel size 0 size.height }
    ensures numbers { AreNumbered bands.old.items → AreNumbered bands.new.items }
{
    let mut first = 0;
    let mut made = 0;
    let mut above = 0;
    let mut row = 0;
    for y in 1..size.height {
        if made + 1 < cut.count {
            if (y - 1) % ROWS_ALIKE == 0 {
                row = row_weight(tick, scene, size, y - 1);
            }
            above += row;
            if cut.ends(made + 1, above, size.height - y) {
                push(bands, channel, size, first, y - first);
                first = y;
                made += 1;
            }
        }
    }
    push(bands, channel, size, first, size.height - first);
}

/// Adds a band of a channel.
fn push(bands: &mut Vec<Band>, channel: u8, size: Geometry, first: u16, rows: u16)
    requires size { IsSize size.width size.height size.pairs }
    requires some { 0 < rows }
    requires inside { first + rows ≤ size.height }
    requires few { vec_len bands.old < 2 ^ 32 }
    requires room { vec_len bands.old < vec_capacity bands.old }
    ensures many { vec_len bands.new ≡ vec_len bands.old + 1 }
    ensures room { vec_capacity bands.new ≡ vec_capacity bands.old }
    ensures rows { rows_of_bands bands.new.items ≡ rows_of_bands bands.old.items ++ rows_from channel size first rows }
    ensures numbers { AreNumbered bands.old.items → AreNumbered bands.new.items }
{
    bands.push_reserved(Band {
        number: bands.len() as u32,
        channel,
        size,
        first,
        rows,
    });
}

//! The rows of bands, made in threads.
ghost use Rattle.std.specs.Prelude.{◌≡◌, ◌-◌, ◌*◌, ◌/◌, ◌<◌, ◌≤◌, ◌^◌, All, true, length};
ghost use Rattle.std.specs.Thread.{IsSync};
ghost use Rattle.play_types.specs.Scene.{IsConfigured};
ghost use Rattle.band_render.specs.Bands.{AreLetIn};
ghost use Rattle.band_render.specs.inner.Drawing.{AreDrawn, CanDraw, HasDrawn, IsTick};
ghost use Rattle.band_render.specs.Rows.{AreOfChannels, byte_count, rows_of, rows_of_bands};
ghost use Rattle.band_render.specs.inner.Shares.{AreShared};

use crate::band::Band;
use crate::bytes::{bytes_of_band, bytes_of_bands};
use crate::gate::{Gate, LetIn};
use clip_format::MediaTable;
use play_scene::Frames;
use play_types::Scenes;
use row_render::{RowRoom, render_row};
use std::thread::{Threads, join_mut};

/// What the rows of a tick are made from: the scenes, the frames of the tick before, and the clips.
#[derive(Clone, Copy)]
pub(crate) struct Tick<'a> {
    pub scenes: &'a Scenes,
    pub prev: &'a Frames,
    pub media: &'a MediaTable,
}

/// Enters the gate, and writes the rows of a band.
fn draw_band<G: Gate>(gate: &G, tick: &Tick<'_>, band: &Band, bytes: &mut [u8], room: &mut RowRoom)
    requires tick { IsTick tick.now }
    requires channel { IsConfigured (length tick.now.scenes.now) band.now.channel }
    requires bytes { length bytes.old ≡ byte_count (rows_of band.now) }
    requires room { band.now.size.width ≤ room.old }
    ensures entered { G.entered gate.now band.now.number ≡ true }
    ensures drawn { AreDrawn tick.now (rows_of band.now) bytes.new }
    ensures room { room.new ≡ room.old }
{
    draw_rows(&LetIn::new(gate, band), tick, bytes, room);
}

/// Writes the rows of a band that was let in.
fn draw_rows<G: Gate>(let_in: &LetIn<'_, G>, tick: &Tick<'_>, bytes: &mut [u8], room: &mut RowRoom)
    requires tick { IsTick tick.now }
    requires channel { IsConfigured (length tick.now.scenes.now) let_in.now.band.now.channel }
    requires bytes { length bytes.old ≡ byte_count (rows_of let_in.now.band.now) }
    requires room { let_in.now.band.now.size.width ≤ room.old }
    ensures drawn { AreDrawn tick.now (rows_of let_in.now.band.now) bytes.new }
    ensures room { room.new ≡ room.old }
{
    let band = let_in.band;
    let scene = tick.scenes.scene(band.channel);
    let row_bytes = 4 * usize::from(band.size.width);
    for at in 0..band.rows {
        let start = row_bytes * usize::from(at);
        let row = &mut bytes[start..start + row_bytes];
        render_row(
            scene,
            band.size,
            tick.prev,
            tick.media,
            band.first + at,
            row,
            room,
        );
    }
}

/// Writes the rows of bands, one band after another.
fn draw_bands<G: Gate>(
    gate: &G,
    tick: &Tick<'_>,
    bands: &[Band],
    bytes: &mut [u8],
    room: &mut RowRoom,
)
    requires tick { IsTick tick.now }
    requires channels { AreOfChannels (length tick.now.scenes.now) bands.now }
    requires bytes { length bytes.old ≡ byte_count (rows_of_bands bands.now) }
    requires small { length bytes.old < 2 ^ 64 }
    requires room { All (λ band. band.size.width ≤ room.old) bands.now }
    ensures entered { AreLetIn (G.entered gate.now) bands.now }
    ensures drawn { AreDrawn tick.now (rows_of_bands bands.now) bytes.new }
    ensures room { room.new ≡ room.old }
{
    let mut start = 0;
    for band in bands {
        let end = start + bytes_of_band(band);
        draw_band(gate, tick, band, &mut bytes[start..end], room);
        start = end;
    }
}

/// Writes the rows of all bands. The bands are split in order into as many groups as there are rooms, whose sizes differ by at most
/// one. A single group is made by the caller's thread. Of several groups, each is made in a thread that is started, and the caller's
/// thread waits.
#[cycle(groups)]
pub(crate) fn draw_all<R: Threads + Sync, G: Gate>(
    rt: &R,
    gate: &G,
    tick: &Tick<'_>,
    bands: &[Band],
    rooms: &mut [RowRoom],
    bytes: &mut [u8],
)
    requires { CanDraw tick.now bands.now rooms.old bytes.old }
    ensures entered { AreLetIn (G.entered gate.now) bands.now }
    ensures drawn { HasDrawn tick.now bands.now rooms.old rooms.new bytes.new }
{
    match rooms {
        [] => {}
        [only] => draw_bands(gate, tick, bands, bytes, only),
        _ => {
            let groups = given_groups(rooms.len());
            let (first_bands, last_bands) = bands.split_at(shares_before(
                bands.len(),
                rooms.len(),
                groups,
            ));
            let (first_bytes, last_bytes) = bytes.split_at_mut(bytes_of_bands(first_bands));
            let (first, last) = rooms.split_at_mut(groups);
            let parts = Parts {
                tick: &*tick,
                first: first_bands,
                last: last_bands,
            };
            draw_both(rt, gate, &parts, first, first_bytes, last, last_bytes);
        }
    }
}

/// Bands of a tick in two parts.
#[derive(Clone, Copy)]
struct Parts<'a> {
    tick: &'a Tick<'a>,
    first: &'a [Band],
    last: &'a [Band],
}

/// Writes the rows of two lists of bands in parallel.
#[cycle(groups)]
fn draw_both<R: Threads + Sync, G: Gate>(
    rt: &R,
    gate: &G,
    parts: &Parts<'_>,
    first: &mut [RowRoom],
    first_bytes: &mut [u8],
    last: &mut [RowRoom],
    last_bytes: &mut [u8],
)
    requires some { (0 < length first.old) × (0 < length last.old) }
    requires first { CanDraw parts.now.tick.now parts.now.first.now first.old first_bytes.old }
    requires last { CanDraw parts.now.tick.now parts.now.last.now last.old last_bytes.old }
    ensures first_entered { AreLetIn (G.entered gate.now) parts.now.first.now }
    ensures first { HasDrawn parts.now.tick.now parts.now.first.now first.old first.new first_bytes.new }
    ensures last_entered { AreLetIn (G.entered gate.now) parts.now.last.now }
    ensures last { HasDrawn parts.now.tick.now parts.now.last.now last.old last.new last_bytes.new }
{
    let Parts {
        tick,
        first: first_bands,
        last: last_bands,
    } = *parts;
    join_mut(
        rt,
        &mut ||
            requires { IsSync R.row × CanDraw tick.now first_bands.now first.now first_bytes.now }
            ensures { AreLetIn (G.entered gate.entry.now) first_bands.entry.now × HasDrawn tick.entry.now first_bands.entry.now first.entry.now first.exit.now first_bytes.exit.now }
        { draw_all(rt, gate, tick, first_bands, first, first_bytes) },
        &mut ||
            requires { IsSync R.row × CanDraw tick.now last_bands.now last.now last_bytes.now }
            ensures { AreLetIn (G.entered gate.entry.now) last_bands.entry.now × HasDrawn tick.entry.now last_bands.entry.now last.entry.now last.exit.now last_bytes.exit.now }
        { draw_started(rt, gate, tick, last_bands, last, last_bytes) },
    );
}

/// Writes the rows of all bands as `draw_all` does, but starts a thread for a single group too. The caller's thread makes none: a
/// thread that is started often begins on the processor of the one that starts it, and waits until that one sleeps.
#[cycle(groups)]
fn draw_started<R: Threads + Sync, G: Gate>(
    rt: &R,
    gate: &G,
    tick: &Tick<'_>,
    bands: &[Band],
    rooms: &mut [RowRoom],
    bytes: &mut [u8],
)
    requires { CanDraw tick.now bands.now rooms.old bytes.old }
    ensures entered { AreLetIn (G.entered gate.now) bands.now }
    ensures drawn { HasDrawn tick.now bands.now rooms.old rooms.new bytes.new }
{
    if rooms.len() > 1 {
        draw_all(rt, gate, tick, bands, rooms, bytes);
        return;
    }
    join_mut(
        rt,
        &mut ||
            requires { IsSync R.row × CanDraw tick.now bands.now rooms.now bytes.now }
            ensures { AreLetIn (G.entered gate.entry.now) bands.entry.now × HasDrawn tick.entry.now bands.entry.now rooms.entry.now rooms.exit.now bytes.exit.now }
        { draw_all(rt, gate, tick, bands, rooms, bytes) },
        &mut || {},
    );
}

/// Returns how many of `groups` groups, from the first on, go to a thread that is started, while the caller's thread handles the
/// others. Of up to eight groups one goes at a time, so that the caller starts all threads: a thread that begins late starts others
/// later still.
fn given_groups(groups: usize) -> usize
    requires { 2 ≤ groups }
    ensures { (0 < result) × (result < groups) }
{
    if groups <= 8 { 1 } else { groups / 2 }
}

/// Returns how many of `bands` bands the first `first` of `groups` groups have.
fn shares_before(bands: usize, groups: usize, first: usize) -> usize
    requires { first < groups }
    ensures range { result ≤ bands }
    ensures first { AreShared result first (bands / groups) }
    ensures last { AreShared (bands - result) (groups - first) (bands / groups) }
{
    first * (bands / groups) + first.min(bands % groups)
}

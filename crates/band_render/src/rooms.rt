//! The rooms of the threads that make bands.
ghost use Rattle.std.specs.Prelude.{◌*◌, ◌≤◌, All, IfOk, length, map};
ghost use Rattle.band_render.specs.Plans.{AreGroups};
ghost use Rattle.band_render.specs.Rows.{size_of};
ghost use Rattle.band_render.specs.inner.Rooms.{AreRooms};

use play_types::{ChannelList, Config};
use row_render::RowRoom;
use std::alloc::{AllocError, Global};

/// The fewest pixels, of the frames of all channels together, that are made by more than one thread. Starting a thread takes longer
/// than making fewer.
const MIN_SHARED_PIXELS: usize = 64;

/// Returns room for a row of the channels of a configuration for each thread that makes them: one for each worker, but no more
/// than there are rows, and one alone if the frames are small.
pub(crate) fn rooms(
    alloc: Global,
    config: &Config,
    workers: usize,
) -> Result<Vec<RowRoom>, AllocError>
    requires some { 1 ≤ workers }
    requires few { workers ≤ 64 }
    ensures rooms { IfOk result (λ rooms. AreRooms config.now.channels rooms.items) }
    ensures groups { IfOk result (λ rooms. AreGroups workers (map size_of config.now.channels) (length rooms.items)) }
{
    let channels = config.channels();
    let width = widest(channels);
    let count = thread_count(channels, workers);
    let mut rooms = Vec::with_capacity(alloc, count)?;
    for _thread in 0..count {
        rooms.push(RowRoom::new(alloc, width)?)?;
    }
    Ok(rooms)
}

/// Returns the width of the widest frame, and 0 if there is no channel.
fn widest(channels: &ChannelList) -> u16
    ensures { All (λ channel. channel.width ≤ result) channels.now }
{
    let mut widest = 0;
    for at in 0..channels.len() {
        widest = channels.get(at).unwrap().geometry().width.max(widest);
    }
    widest
}

/// Returns how many threads make the frames of these channels: as many as there are workers, or as there are rows if these are
/// fewer, and one if the frames are small.
fn thread_count(channels: &ChannelList, workers: usize) -> usize
    requires some { 1 ≤ workers }
    requires few { workers ≤ 64 }
    ensures range { (1 ≤ result) × (result ≤ workers) }
    ensures groups { AreGroups workers (map size_of channels.now) result }
{
    let mut rows = 0;
    let mut pixels = 0;
    for at in 0..channels.len() {
        let size = channels.get(at).unwrap().geometry();
        let height = usize::from(size.height);
        rows = workers.min(rows + height);
        pixels = MIN_SHARED_PIXELS.min(pixels + height * usize::from(size.width));
    }
    if pixels < MIN_SHARED_PIXELS {
        1
    } else {
        rows.max(1)
    }
}

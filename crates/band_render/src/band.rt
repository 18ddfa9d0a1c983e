//! Bands of rows.
ghost use Rattle.std.specs.Prelude.{◌+◌, ◌<◌, ◌≤◌};
ghost use Rattle.play_types.specs.Geometry.{IsSize};

use play_types::Geometry;

/// Some rows of the picture of a channel, one below the other.
#[derive(Clone, Copy)]
pub(crate) struct Band {
    /// Counted from 0 over all channels.
    pub number: u32,
    pub channel: u8,
    /// The size of the channel's frame.
    pub size: Geometry,
    pub first: u16,
    pub rows: u16,
    ghost sized: { IsSize size.width size.height size.pairs },
    ghost some: { 0 < rows },
    ghost inside: { first + rows ≤ size.height },
}

//! The layers that a frame is composed of, as the stage gives them.

use crate::transition::Trans;

/// A still picture.
#[derive(Clone, Copy, Debug, PartialEq, Eq)]
pub enum Still {
    /// A transparent picture.
    Nothing,
    /// A colour, `0xAARRGGBB`.
    Colour(u32),
    /// A clip, by its position in the media table, and a frame of it.
    Frame(u32, u32),
    /// The previous frame of a channel.
    Channel(u8),
}

/// One layer of a frame: its picture, the one that it replaces, and its mixer values.
#[derive(Clone, Copy, Debug, PartialEq, Eq)]
pub struct Drawn {
    pub still: Still,
    /// The picture that the transition replaces.
    pub old: Still,
    /// The transition. Its curve is linear: one of another curve is drawn as a linear one of `EASED_STEPS` ticks.
    pub trans: Trans,
    /// The step of the transition, 1 or more from its first tick on, and its duration once it is over.
    pub step: u32,
    /// In millionths, 0 to 1,000,000.
    pub opacity: i64,
    /// Left and top edge, width and height, in millionths.
    pub fill: [i64; 4],
    /// Left and top edge, width and height, in millionths.
    pub clip: [i64; 4],
    /// In millionths, 0 to 1,000,000,000.
    pub volume: i64,
    /// Whether it keys the next layer above it instead of being shown.
    pub keyer: bool,
}

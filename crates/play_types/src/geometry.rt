//! The size of a picture and of its sound.
ghost use Rattle.std.specs.Prelude.{◌≡◌, ◌↔◌, IsTrue};
ghost use Rattle.play_types.specs.Geometry.{IsSize, frame_bytes};

/// The most columns, and the most rows, of a frame.
pub const MAX_SIDE: u16 = 4_096;

/// The most stereo pairs of sound of a frame.
pub const MAX_PAIRS: u16 = 4_096;

/// The size of a frame: columns, rows, and stereo pairs of sound.
#[derive(Clone, Copy, Debug, PartialEq, Eq)]
pub struct Geometry {
    pub width: u16,
    pub height: u16,
    pub pairs: u16,
}

impl Geometry {
    /// Returns whether there are 1 to 4096 columns and rows, and at most 4096 pairs.
    pub fn is_in_range(self) -> bool
        ensures { IsTrue result ↔ IsSize self.width self.height self.pairs }
    {
        (1..=MAX_SIDE).contains(&self.width)
            && (1..=MAX_SIDE).contains(&self.height)
            && self.pairs <= MAX_PAIRS
    }

    /// Returns the number of bytes of one frame: four a pixel, and four a pair.
    pub fn frame_bytes(self) -> u64
        ensures { result ≡ frame_bytes self }
    {
        4 * u64::from(self.width) * u64::from(self.height) + 4 * u64::from(self.pairs)
    }
}

//! How many frames may wait.
ghost use Rattle.std.specs.Prelude.{◌≡◌, ◌/◌, ◌<◌, ◌+◌, ◌-◌, max, min};

/// The most bytes of the frames that an output with one reader holds, whatever the reader does, unless [`MIN_WAITING`]
/// frames need more.
pub const MAX_HELD_BYTES: usize = 67_108_864;

/// The least number of frames that may wait, however large they are.
pub const MIN_WAITING: usize = 2;

/// The greatest number of frames that may wait, however small they are.
pub const MAX_WAITING: usize = 1_024;

/// How many frames are held besides those that wait and those that readers have begun: one is written while another is
/// on its way.
pub const MOVING: usize = 2;

/// The most readers of an output.
pub const MAX_READERS: usize = 8;

/// Returns how many frames of `size` bytes may wait: as many as fit in [`MAX_HELD_BYTES`] besides the one that a reader
/// has begun and [`MOVING`] others, but at least [`MIN_WAITING`] and at most [`MAX_WAITING`].
pub fn waiting_frames(size: usize) -> usize
    requires { 0 < size }
    ensures { result ≡ min (max (MAX_HELD_BYTES / size - (MOVING + 1)) MIN_WAITING) MAX_WAITING }
{
    (MAX_HELD_BYTES / size)
        .saturating_sub(MOVING + 1)
        .max(MIN_WAITING)
        .min(MAX_WAITING)
}

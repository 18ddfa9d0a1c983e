//! How loud a sound is.
ghost use Rattle.std.specs.Prelude.{◌≡◌, ◌+◌, ◌*◌, ◌≤◌, length};
ghost use Rattle.view_status.specs.Levels.{levels_of, loudness};

/// How loud the sound of a channel is at a tick: the greatest absolute value of the samples of each side, 0 to 32,768.
#[derive(Clone, Copy, Debug, PartialEq, Eq)]
pub struct Levels {
    pub left: u16,
    pub right: u16,
}

/// Returns the levels of a sound: stereo pairs, left and right, each an `i16` in little-endian. They are 0 for no sound. Bytes
/// after the last whole pair are passed over.
pub fn levels_of(sound: &[u8]) -> Levels
    ensures { result ≡ levels_of sound.now }
{
    let mut levels = Levels { left: 0, right: 0 };
    for pair in 0..sound.len() / 4 {
        levels.left = levels.left.max(loudness(sound, 0, pair));
        levels.right = levels.right.max(loudness(sound, 1, pair));
    }
    levels
}

/// Returns the absolute value of a sample: of the left side if `side` is 0, and of the right side if it is 1.
fn loudness(sound: &[u8], side: usize, pair: usize) -> u16
    requires side { side ≤ 1 }
    requires pair { 4 * pair + 4 ≤ length sound.now }
    ensures { result ≡ loudness sound.now side pair }
{
    let at = 4 * pair + 2 * side;
    i16::from_le_bytes([sound[at], sound[at + 1]]).unsigned_abs()
}

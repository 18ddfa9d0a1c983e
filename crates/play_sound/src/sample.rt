//! Samples of sounds, at their volumes and in transitions.
ghost use Rattle.std.specs.Prelude.{◌≡◌, ◌+◌, ◌*◌, ◌<◌, ◌≤◌, ◌%◌, ◌∷◌, [], length};
ghost use Rattle.play_types.specs.Setting.{AreValues};
ghost use Rattle.play_types.specs.declared.setting.Prop.TheVariants.{Volume};
ghost use Rattle.history_model.specs.pictures.Sound.{mixed_sample};
ghost use Rattle.play_sound.specs.inner.Rows.{at_volume, sample_at};
ghost use Rattle.play_sound.specs.inner.Ranges.{IsNear};

use play_types::MICROS_PER_UNIT;

/// Returns the sample at a place of a sound.
pub(crate) fn sample_at(sound: &[u8], place: usize) -> i64
    requires { 2 * place + 2 ≤ length sound.now }
    ensures value { result ≡ sample_at sound.now place }
    ensures near { IsNear 32768 result }
{
    i64::from(i16::from_le_bytes([sound[2 * place], sound[2 * place + 1]]))
}

/// Returns the sample at a place of a sound, and 0 past the end of its bytes.
pub(crate) fn sample_or_silence(sound: &[u8], place: usize) -> i64
    requires { length sound.now % 2 ≡ 0 }
    ensures value { result ≡ sample_at sound.now place }
    ensures near { IsNear 32768 result }
{
    if place < sound.len() / 2 {
        sample_at(sound, place)
    } else {
        0
    }
}

/// Returns a sample at a volume in millionths, rounded toward zero. A volume of 1,000,000 leaves it as it is.
pub(crate) fn played(sample: i64, volume: i64) -> i64
    requires sample { IsNear 32768 sample }
    requires volume { AreValues Volume (volume ∷ []) }
    ensures value { result ≡ at_volume sample volume }
    ensures near { IsNear 32768000 result }
{
    if volume == MICROS_PER_UNIT {
        return sample;
    }
    sample * volume / MICROS_PER_UNIT
}

/// Returns the mean of an old and a new sample at step `j` of `d`, rounded toward zero.
pub(crate) fn mean(old: i64, new: i64, j: u32, d: u32) -> i64
    requires old { IsNear 32768 old }
    requires new { IsNear 32768 new }
    requires step { j < d }
    ensures value { result ≡ mixed_sample old new j d }
    ensures near { IsNear 32768 result }
{
    (old * i64::from(d - j) + new * i64::from(j)) / i64::from(d)
}

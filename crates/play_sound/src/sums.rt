//! Rows of sums of samples, in turn the left and the right one of each pair.
ghost use Rattle.std.specs.Prelude.{◌≡◌, ◌+◌, ◌*◌, ◌/◌, ◌<◌, ◌≤◌, ◌%◌, ◌+ℤ◌, ◌∷◌, [], length};
ghost use Rattle.play_types.specs.Setting.{AreValues, number_at};
ghost use Rattle.play_types.specs.declared.setting.Prop.TheVariants.{Volume};
ghost use Rattle.history_model.specs.pictures.Sound.{held_to_sample, mixed_sample};
ghost use Rattle.history_model.specs.scripts.Output.{sample_bytes};
ghost use Rattle.play_scene.specs.Frames.{with_piece};
ghost use Rattle.play_sound.specs.Sounds.{bytes_of_samples};
ghost use Rattle.play_sound.specs.inner.Rows.{AreAdded, AreSums, at_volume, sample_at};
ghost use Rattle.play_sound.specs.inner.Ranges.{IsNear};

use crate::sample::{mean, played, sample_at, sample_or_silence};

/// Adds the samples of a sound at a volume to sums, place by place. Past the end of its bytes the sound is silent.
pub(crate) fn add_samples(sound: &[u8], volume: i64, sums: &mut [i64])
    requires whole { length sound.now % 2 ≡ 0 }
    requires volume { AreValues Volume (volume ∷ []) }
    requires sums { AreSums 63 sums.old }
    ensures { AreAdded (λ i. at_volume (sample_at sound.now i) volume) sums.old sums.new }
{
    let count = sums.len().min(sound.len() / 2);
    let mut at = 0;
    'samples: while at < count {
        sums[at] = total(sums[at], played(sample_at(sound, at), volume));
        at += 1;
    }
}

/// Adds the means of the samples of an old and a new sound at step `j` of `d`, at a volume, to sums, place by place. Past the
/// end of its bytes a sound is silent.
pub(crate) fn add_mixed(old: &[u8], new: &[u8], j: u32, d: u32, volume: i64, sums: &mut [i64])
    requires old { length old.now % 2 ≡ 0 }
    requires new { length new.now % 2 ≡ 0 }
    requires step { j < d }
    requires volume { AreValues Volume (volume ∷ []) }
    requires sums { AreSums 63 sums.old }
    ensures { AreAdded (λ i. at_volume (mixed_sample (sample_at old.now i) (sample_at new.now i) j d) volume) sums.old sums.new }
{
    let count = sums.len().min(old.len().max(new.len()) / 2);
    let mut at = 0;
    'samples: while at < count {
        let mean = mean(sample_or_silence(old, at), sample_or_silence(new, at), j, d);
        sums[at] = total(sums[at], played(mean, volume));
        at += 1;
    }
}

/// Returns a sum plus one sample.
fn total(sum: i64, sample: i64) -> i64
    requires sum { IsNear (32768000 * 63) sum }
    requires sample { IsNear 32768000 sample }
    ensures { result ≡ sum +ℤ sample }
{
    sum + sample
}

/// Writes sums as samples of two bytes, each clamped to the range of an `i16`.
pub(crate) fn write_samples(sums: &[i64], row: &mut [u8])
    requires whole { length row.old % 4 ≡ 0 }
    requires few { length row.old ≤ 2 * length sums.now }
    requires sums { AreSums 64 sums.now }
    ensures { row.new ≡ bytes_of_samples (length row.old / 4) (λ pair side. held_to_sample (number_at sums.now (2 * pair + side))) }
{
    for pair in 0..row.len() / 4 {
        put_sample(row, 4 * pair, held(sums[2 * pair]));
        put_sample(row, 4 * pair + 2, held(sums[2 * pair + 1]));
    }
}

/// Returns a sum clamped to the range of a sample.
fn held(sum: i64) -> i16
    ensures { result ≡ held_to_sample sum }
{
    sum.clamp(i64::from(i16::MIN), i64::from(i16::MAX)) as i16
}

/// Writes the two bytes of a sample from byte `at` on.
fn put_sample(out: &mut [u8], at: usize, sample: i16)
    requires { at + 2 ≤ length out.old }
    ensures { out.new ≡ with_piece at (sample_bytes sample) out.old }
{
    out[at..at + 2].copy_from_slice(&sample.to_le_bytes());
}

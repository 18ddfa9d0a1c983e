//! The sound of a scene.
ghost use Rattle.std.specs.Prelude.{◌≡◌, ◌*◌, ◌+◌, ◌/◌, ◌%◌, ◌<◌, ◌≤◌, ◌∷◌, [], All, length};
ghost use Rattle.play_types.specs.Scene.{NamesConfigured};
ghost use Rattle.play_types.specs.Setting.{AreValues};
ghost use Rattle.play_types.specs.declared.setting.Prop.TheVariants.{Volume};
ghost use Rattle.history_model.specs.pictures.Sound.{layer_sample};
ghost use Rattle.play_sound.specs.Sounds.{AreSounds, Sounds, bytes_of_samples, mixed_sample, sounds_of};
ghost use Rattle.play_sound.specs.inner.Rows.{AreAdded, AreSums, still_at};

use crate::sound::still_sound;
use crate::sums::{add_mixed, add_samples, write_samples};
use clip_format::MediaTable;
use play_scene::Frames;
use play_types::{Drawn, Geometry, Scene};

/// How many pairs are mixed at a time.
const ROW_PAIRS: usize = 64;

/// How many samples are mixed at a time.
const ROW_SAMPLES: usize = 2 * ROW_PAIRS;

/// Writes the sound of a frame of this size that shows a scene, by the sounds of the tick before and the clips: its stereo
/// pairs, left and right, each an `i16` in little-endian.
///
/// Each sample is the sum of the samples of all layers, clamped to the range of an `i16`. A layer's sample is that of its still, or,
/// during a transition of any kind, the mean of the old and the new one by the step, times its volume. Each quotient is rounded
/// toward zero. A still with fewer pairs is silent in the others, and so are colours. `out` has four bytes a pair, and the channels
/// whose sounds the layers give are configured.
pub fn mix_sound(scene: &Scene, size: Geometry, prev: &Frames, media: &MediaTable, out: &mut [u8])
    requires room { length out.old ≡ 4 * size.pairs }
    requires names { All (NamesConfigured (length prev.now)) scene.now }
    ensures { (sounds : Sounds) → AreSounds sounds prev.now media.now →
        out.new ≡ bytes_of_samples size.pairs (mixed_sample sounds scene.now) }
{
    let pairs = usize::from(size.pairs);
    let mut first = 0;
    'rows: while first < pairs {
        let end = (first + ROW_PAIRS).min(pairs);
        mix_row(scene, prev, media, first, &mut out[4 * first..4 * end]);
        first = end;
    }
}

/// Writes the pairs of the sound of a scene from pair `first` on: as many as the row has room for, at most 64. It goes over
/// the layers once.
fn mix_row(scene: &Scene, prev: &Frames, media: &MediaTable, first: usize, row: &mut [u8])
    requires first { first < 65536 }
    requires whole { length row.old % 4 ≡ 0 }
    requires few { length row.old ≤ 2 * ROW_SAMPLES }
    requires names { All (NamesConfigured (length prev.now)) scene.now }
    ensures { row.new ≡ bytes_of_samples (length row.old / 4)
        (λ pair side. mixed_sample (sounds_of prev.now media.now) scene.now (first + pair) side) }
{
    let mut sums = [0; ROW_SAMPLES];
    for drawn in scene.drawn() {
        add_layer(drawn, prev, media, first, &mut sums);
    }
    write_samples(&sums, row);
}

/// Adds the samples of a layer from pair `first` on to sums, place by place: those of its still, or during a transition the
/// means of both stills, at its volume.
fn add_layer(drawn: &Drawn, prev: &Frames, media: &MediaTable, first: usize, sums: &mut [i64])
    requires first { first < 65536 }
    requires names { NamesConfigured (length prev.now) drawn.now }
    requires volume { AreValues Volume (drawn.now.volume ∷ []) }
    requires sums { AreSums 63 sums.old }
    ensures { AreAdded (λ i. layer_sample (still_at (sounds_of prev.now media.now) first i) drawn.now) sums.old sums.new }
{
    let new = still_sound(drawn.still, prev, media, first);
    let duration = drawn.trans.duration();
    if drawn.step >= duration {
        add_samples(new, drawn.volume, sums);
        return;
    }
    let old = still_sound(drawn.old, prev, media, first);
    add_mixed(old, new, drawn.step, duration, drawn.volume, sums);
}

//! The sounds of stills.
ghost use Rattle.std.specs.Prelude.{◌≡◌, ℕ, ◌+◌, ◌*◌, ◌%◌, ◌<◌, length, drop};
ghost use Rattle.play_types.specs.Scene.{ShowsConfigured};
ghost use Rattle.history_model.specs.pictures.Media.{clip_sample, sample_of_bytes};
ghost use Rattle.history_model.specs.pictures.Sound.{still_sample};
ghost use Rattle.play_sound.specs.Sounds.{sounds_of};
ghost use Rattle.play_sound.specs.inner.Rows.{sample_at, still_at};

use clip_format::MediaTable;
use play_scene::Frames;
use play_types::{Clip, Still};

/// Returns the bytes of the sound of a still from pair `first` on. Past their end it is silent.
pub(crate) fn still_sound<'a>(
    still: Still,
    prev: &'a Frames,
    media: &'a MediaTable,
    first: usize,
) -> &'a [u8]
    requires first { first < 65536 }
    requires names { ShowsConfigured (length prev.now) still }
    ensures samples { (i : ℕ) → sample_at result.now i ≡ still_at (sounds_of prev.now media.now) first i still }
    ensures whole { length result.now % 2 ≡ 0 }
{
    from_pair(whole_sound(still, prev, media), first)
}

/// Returns the bytes of the whole sound of a still. Past their end it is silent.
fn whole_sound<'a>(still: Still, prev: &'a Frames, media: &'a MediaTable) -> &'a [u8]
    requires names { ShowsConfigured (length prev.now) still }
    ensures samples { (pair side : ℕ) → side < 2 → sample_of_bytes result.now (4 * pair + 2 * side)
        ≡ still_sample (sounds_of prev.now media.now).setup (sounds_of prev.now media.now).samples pair side still }
    ensures whole { length result.now % 4 ≡ 0 }
{
    match still {
        Still::Nothing | Still::Colour(_) => &[],
        Still::Frame(id, frame) => match media.clip(id) {
            Some(clip) => clip_sound(clip, frame),
            None => &[],
        },
        Still::Channel(channel) => prev.sound(channel),
    }
}

/// Returns the bytes of the sound of a frame of a clip: none if it has no such frame.
fn clip_sound(clip: &Clip, frame: u32) -> &[u8]
    ensures samples { (pair side : ℕ) → side < 2 → sample_of_bytes result.now (4 * pair + 2 * side) ≡ clip_sample clip.now frame pair side }
    ensures whole { length result.now % 4 ≡ 0 }
{
    if frame >= clip.frames() {
        return &[];
    }
    let size = clip.geometry();
    let pixels = 4 * u64::from(size.width) * u64::from(size.height);
    let start = (u64::from(frame) * size.frame_bytes() + pixels) as usize;
    &clip.bytes()[start..start + 4 * usize::from(size.pairs)]
}

/// Returns the bytes of a sound from pair `first` on.
fn from_pair(sound: &[u8], first: usize) -> &[u8]
    requires { first < 65536 }
    ensures { result.now ≡ drop (4 * first) sound.now }
{
    let start = 4 * first;
    if start < sound.len() {
        &sound[start..]
    } else {
        &[]
    }
}

//! Frames from the pictures of a tick.
ghost use Rattle.std.specs.Prelude.{◌≡◌, ◌*◌, length};
ghost use Rattle.play_types.specs.declared.geometry.TheConstants.{MAX_PAIRS};
ghost use Rattle.play_types.specs.Scene.{IsConfigured};
ghost use Rattle.play_scene.specs.Frames.{frame_at, with_sound};
ghost use Rattle.band_render.specs.Rendered.{AreRendered, sizes};
ghost use Rattle.band_render.specs.inner.Drawing.{AreDrawn, HasSoundOf, IsTick};
ghost use Rattle.band_render.specs.Rows.{rows_of_frames};

use crate::drawing::Tick;
use play_scene::Frames;
use play_sound::mix_sound;

/// Makes the frames of all channels in `next`. `pixels` has their pictures, one after another, and gets the pixels that `next` had.
/// `room` is as long as the largest sound.
pub(crate) fn render_frames(
    tick: &Tick<'_>,
    pixels: &mut Vec<u8>,
    next: &mut Frames,
    room: &mut [u8],
)
    requires tick { IsTick tick.now }
    requires drawn { AreDrawn tick.now (rows_of_frames 1 (sizes tick.now.prev.now)) pixels.old.items }
    requires next { sizes next.old ≡ sizes tick.now.prev.now }
    requires room { length room.old ≡ 4 * MAX_PAIRS }
    ensures rendered { AreRendered tick.now.prev.now tick.now.media.now tick.now.scenes.now next.new }
    ensures pixels { length pixels.new.items ≡ length pixels.old.items }
    ensures room { length room.new ≡ length room.old }
{
    next.exchange(pixels);
    for at in 0..tick.scenes.channels() {
        render_sound(tick, at + 1, next, room);
    }
}

/// Writes the sound of a channel into its frame of `next`.
fn render_sound(tick: &Tick<'_>, channel: u8, next: &mut Frames, room: &mut [u8])
    requires tick { IsTick tick.now }
    requires channel { IsConfigured (length tick.now.scenes.now) channel }
    requires next { length next.old ≡ length tick.now.scenes.now }
    requires room { length room.old ≡ 4 * MAX_PAIRS }
    ensures heard { HasSoundOf tick.now channel (frame_at channel next.new) }
    ensures others { next.new ≡ with_sound channel (frame_at channel next.new).sound next.old }
    ensures room { length room.new ≡ length room.old }
{
    let size = next.size(channel);
    let sound = &mut room[..4 * usize::from(size.pairs)];
    mix_sound(
        tick.scenes.scene(channel),
        size,
        tick.prev,
        tick.media,
        sound,
    );
    next.put_sound(channel, sound);
}

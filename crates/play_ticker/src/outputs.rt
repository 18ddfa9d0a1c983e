//! Frames that are written.
ghost use Rattle.std.specs.Prelude.{◌≡◌, length, MatchResult};
ghost use Rattle.play_types.specs.Scene.{IsConfigured};
ghost use Rattle.play_outside.specs.SinkState.{after_taking};
ghost use Rattle.play_ticker.specs.Outputs.{EachOutput};
ghost use Rattle.play_ticker.specs.inner.Writing.{FailsAt, bytes_in};

use band_render::Renderer;
use frame_writer::write_raw;
use play_outside::{Sent, Sink};

/// Writes the frame and the sound of each of the first `channels` channels to its output, channel 1 first. After a failed write it
/// writes nothing more, and returns the channel whose output failed.
pub(crate) fn write_frames<O: Sink>(
    channels: u8,
    renderer: &Renderer,
    outs: &mut [O],
) -> Result<(), u8>
    requires channels { channels ≡ length renderer.now }
    requires outs { channels ≡ length outs.old }
    ensures outs { MatchResult result
        (λ done. EachOutput (λ channel before after. O.state after ≡ after_taking (O.state before) (bytes_in renderer.now channel)) 1 outs.old outs.new)
        (λ failed. EachOutput (λ channel before after. FailsAt failed (bytes_in renderer.now) channel (O.state before) (O.state after)) 1 outs.old outs.new) }
    ensures failed { MatchResult result (λ done. Unit {0}) (λ failed. IsConfigured (length renderer.now) failed) }
{
    for at in 0..channels {
        let channel = at + 1;
        let out = &mut outs[usize::from(at)];
        match write_raw(renderer.frame(channel), renderer.sound(channel), out) {
            Sent::All => {}
            Sent::Failed => return Err(channel),
        }
    }
    Ok(())
}

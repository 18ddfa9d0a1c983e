//! Frames as raw bytes.
ghost use Rattle.std.specs.Prelude.{◌++◌};
ghost use Rattle.play_outside.specs.Sink.{Sends};

use play_outside::{Sent, Sink, send_parts};

/// Writes the bytes of a frame, and then those of its sound.
pub fn write_raw<K: Sink>(frame: &[u8], sound: &[u8], to: &mut K) -> Sent
    ensures { Sends result (frame.now ++ sound.now) (K.state to.old) (K.state to.new) }
{
    send_parts(&[frame, sound], to)
}

//! Frames as digests.
ghost use Rattle.std.specs.Prelude.{◌≡◌, ◌++◌};
ghost use Rattle.hex.specs.Hex.{encode_lower};
ghost use Rattle.sha2.specs.Sha256.{sha256};
ghost use Rattle.play_outside.specs.Sink.{Sends};
ghost use Rattle.history_model.specs.text.Frames.{digest_line};

use itoa::Buffer;
use play_outside::{Sent, Sink, send_parts};
use sha2::{Digest, Sha256};

/// Writes one line for a frame: `D`, the channel, the tick, and the SHA-256 of the bytes of the frame followed by
/// those of the sound, in lower-case hexadecimal.
pub fn write_digest<K: Sink>(channel: u8, tick: u64, frame: &[u8], sound: &[u8], to: &mut K) -> Sent
    ensures { Sends result (digest_line channel tick frame.now sound.now) (K.state to.old) (K.state to.new) }
{
    send_parts(
        &[
            b"D ",
            Buffer::new().format(channel).as_bytes(),
            b" ",
            Buffer::new().format(tick).as_bytes(),
            b" ",
            &digest_of(frame, sound),
            b"\n",
        ],
        to,
    )
}

/// Returns the SHA-256 of the bytes of the frame followed by those of the sound, in lower-case hexadecimal.
fn digest_of(frame: &[u8], sound: &[u8]) -> [u8; 64]
    ensures { result ≡ encode_lower (sha256 (frame.now ++ sound.now)) }
{
    let mut hasher = Sha256::new();
    hasher.update(frame);
    hasher.update(sound);
    let mut digits = [0; 64];
    hex::encode_to_slice(hasher.finalize(), &mut digits).unwrap();
    digits
}

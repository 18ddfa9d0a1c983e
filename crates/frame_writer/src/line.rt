//! Lines of hexadecimal.
ghost use Rattle.std.specs.Prelude.{◌≤◌, ◌∷◌, ◌++◌, [], length};
ghost use Rattle.hex.specs.Hex.{encode_lower};
ghost use Rattle.play_outside.specs.Gathered.{Adds};

use play_outside::{Gather, Sent, Sink};

/// How many bytes are turned into digits at a time.
const PIECE: usize = 512;

/// How many bytes of text are gathered before they are written.
const GATHERED: usize = 32_768;

/// Text that is gathered before it is written.
pub(crate) type GatheredText = Gather<GATHERED>;

/// Adds bytes in hexadecimal, and a line feed.
pub(crate) fn add_line<K: Sink>(bytes: &[u8], text: &mut GatheredText, to: &mut K) -> Sent
    ensures { Adds result (text.old ++ (encode_lower bytes.now ++ 10 ∷ [])) text.new (K.state to.old) (K.state to.new) }
{
    let mut at = 0;
    while bytes.len() - at > PIECE {
        add_digits(&bytes[at..at + PIECE], text, to)?;
        at += PIECE;
    }
    add_digits(&bytes[at..], text, to)?;
    text.add(b"\n", to)
}

/// Adds at most `PIECE` bytes in hexadecimal.
fn add_digits<K: Sink>(bytes: &[u8], text: &mut GatheredText, to: &mut K) -> Sent
    requires { length bytes.now ≤ PIECE }
    ensures { Adds result (text.old ++ encode_lower bytes.now) text.new (K.state to.old) (K.state to.new) }
{
    let mut room = [0; 2 * PIECE];
    let digits = &mut room[..2 * bytes.len()];
    hex::encode_to_slice(bytes, digits).unwrap();
    text.add(digits, to)
}

//! Bytes as they are, or as hexadecimal.
ghost use Rattle.std.specs.Prelude.{◌≤◌, ◌++◌, length};
ghost use Rattle.hex.specs.Hex.{encode_lower};
ghost use Rattle.play_outside.specs.Gathered.{Adds};
ghost use Rattle.osc_status.specs.inner.Form.{formed};

use play_outside::{Gather, Sent, Sink};

/// How many bytes are gathered before they are written.
const GATHERED: usize = 4_096;

/// Bytes that are gathered before they are written.
pub(crate) type Pieces = Gather<GATHERED>;

/// How many bytes are turned into digits at a time.
const SHORT: usize = 8;

/// How the bytes of a message are written.
#[derive(Clone, Copy, Debug, PartialEq, Eq)]
pub(crate) enum Form {
    /// As they are.
    Raw,
    /// Each as two digits of hexadecimal, in lower case.
    Hex,
}

impl Form {
    /// Adds at most `SHORT` bytes.
    pub(crate) fn add<K: Sink>(self, bytes: &[u8], pieces: &mut Pieces, to: &mut K) -> Sent
        requires { length bytes.now ≤ SHORT }
        ensures { Adds result (pieces.old ++ formed self bytes.now) pieces.new (K.state to.old) (K.state to.new) }
    {
        match self {
            Form::Raw => pieces.add(bytes, to),
            Form::Hex => add_digits(bytes, pieces, to),
        }
    }
}

/// Adds at most `SHORT` bytes in hexadecimal.
fn add_digits<K: Sink>(bytes: &[u8], pieces: &mut Pieces, to: &mut K) -> Sent
    requires { length bytes.now ≤ SHORT }
    ensures { Adds result (pieces.old ++ encode_lower bytes.now) pieces.new (K.state to.old) (K.state to.new) }
{
    let mut room = [0; 2 * SHORT];
    let digits = &mut room[..2 * bytes.len()];
    hex::encode_to_slice(bytes, digits).unwrap();
    pieces.add(digits, to)
}

//! Texts that are written.
ghost use Rattle.std.specs.Prelude.{◌≤◌, ◌∷◌, ◌++◌, [], flat_map, replicate};
ghost use Rattle.play_outside.specs.Gathered.{Adds};
ghost use Rattle.osc_status.specs.Texts.{padded, without_zeros};
ghost use Rattle.osc_status.specs.inner.Form.{formed};

use crate::form::{Form, Pieces};
use crate::padding::padding_after;
use play_outside::{Sent, Sink};

/// Adds a text that comes in parts, with its padding. Zero bytes of the parts are left out.
pub(crate) fn add_text<K: Sink>(
    form: Form,
    parts: &[&[u8]],
    pieces: &mut Pieces,
    to: &mut K,
) -> Sent
    ensures { Adds result (pieces.old ++ formed form (padded (flat_map (λ part. without_zeros part.now) parts.now))) pieces.new (K.state to.old) (K.state to.new) }
{
    add_parts(form, parts, pieces, to)?;
    add_zeros(form, padding_after(parts), pieces, to)
}

/// Adds the parts one after another, without their zero bytes.
fn add_parts<K: Sink>(form: Form, parts: &[&[u8]], pieces: &mut Pieces, to: &mut K) -> Sent
    ensures { Adds result (pieces.old ++ flat_map (λ part. formed form (without_zeros part.now)) parts.now) pieces.new (K.state to.old) (K.state to.new) }
{
    for part in parts {
        add_part(form, part, pieces, to)?;
    }
    Sent::All
}

/// Adds the bytes that are not zero.
fn add_part<K: Sink>(form: Form, part: &[u8], pieces: &mut Pieces, to: &mut K) -> Sent
    ensures { Adds result (pieces.old ++ formed form (without_zeros part.now)) pieces.new (K.state to.old) (K.state to.new) }
{
    for byte in part {
        add_byte(form, *byte, pieces, to)?;
    }
    Sent::All
}

/// Adds a byte, if it is not zero.
fn add_byte<K: Sink>(form: Form, byte: u8, pieces: &mut Pieces, to: &mut K) -> Sent
    ensures { Adds result (pieces.old ++ formed form (without_zeros (byte ∷ []))) pieces.new (K.state to.old) (K.state to.new) }
{
    if byte == 0 {
        Sent::All
    } else {
        form.add(&[byte], pieces, to)
    }
}

/// Adds at most four zero bytes.
fn add_zeros<K: Sink>(form: Form, count: usize, pieces: &mut Pieces, to: &mut K) -> Sent
    requires { count ≤ 4 }
    ensures { Adds result (pieces.old ++ formed form (replicate count 0)) pieces.new (K.state to.old) (K.state to.new) }
{
    form.add(&[0; 4][..count], pieces, to)
}

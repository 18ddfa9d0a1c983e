//! The word of a producer.
ghost use Rattle.std.specs.Prelude.{◌≡◌, ◌++◌, chars, map};
ghost use Rattle.std.specs.Char.{to_ascii_uppercase};
ghost use Rattle.play_outside.specs.Gathered.{Adds};
ghost use Rattle.history_model.specs.text.Commands.{capital_digits};
ghost use Rattle.osc_status.specs.Texts.{text_bytes, without_zeros};
ghost use Rattle.osc_status.specs.Status.{producer_text};
ghost use Rattle.osc_status.specs.inner.Form.{formed};

use crate::form::{Form, Pieces};
use crate::text::add_text;
use itoa::Buffer;
use play_outside::{Sent, Sink};
use play_types::{MediaNames, Spec};

/// Adds the bytes of the word of a producer: the name of a clip without its zero characters, a colour as `#`
/// and eight digits, or a route.
pub(crate) fn add_producer<K: Sink>(
    form: Form,
    spec: Spec,
    names: &MediaNames,
    pieces: &mut Pieces,
    to: &mut K,
) -> Sent
    ensures { Adds result (pieces.old ++ formed form (text_bytes (without_zeros (producer_text names.now spec)))) pieces.new (K.state to.old) (K.state to.new) }
{
    match spec {
        Spec::Clip(id) => match names.get(id as usize) {
            Some(clip) => add_name(form, clip.name().as_str(), pieces, to),
            None => add_name(form, "", pieces, to),
        },
        Spec::Colour(value) => add_text(form, &[b"#", &colour_digits(value)], pieces, to),
        Spec::RouteChannel(channel) => add_text(
            form,
            &[b"route://", Buffer::new().format(channel).as_bytes()],
            pieces,
            to,
        ),
        Spec::RouteLayer(place) => add_text(
            form,
            &[
                b"route://",
                Buffer::new().format(place.channel()).as_bytes(),
                b"-",
                Buffer::new().format(place.layer()).as_bytes(),
            ],
            pieces,
            to,
        ),
    }
}

/// Adds the bytes of a name, without its zero characters.
fn add_name<K: Sink>(form: Form, name: &str, pieces: &mut Pieces, to: &mut K) -> Sent
    ensures { Adds result (pieces.old ++ formed form (text_bytes (without_zeros (chars name.now)))) pieces.new (K.state to.old) (K.state to.new) }
{
    add_text(form, &[name.as_bytes()], pieces, to)
}

/// Returns the eight hexadecimal digits of a colour, in capitals.
fn colour_digits(value: u32) -> [u8; 8]
    ensures { result ≡ capital_digits 8 value }
{
    let mut digits = [0; 8];
    hex::encode_to_slice(value.to_be_bytes(), &mut digits).unwrap();
    in_capitals(digits)
}

/// Returns the digits, their letters in capitals.
fn in_capitals(digits: [u8; 8]) -> [u8; 8]
    ensures { result ≡ map to_ascii_uppercase digits }
{
    let mut capitals = digits;
    for at in 0..digits.len() {
        capitals[at] = digits[at].to_ascii_uppercase();
    }
    capitals
}

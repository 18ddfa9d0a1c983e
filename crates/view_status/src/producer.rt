//! The word of what a layer plays.
ghost use Rattle.std.specs.Prelude.{◌≡◌, ◌<◌, ◌∷◌, ◌++◌, IfOk, OnOk, codes, decimal, true};
ghost use Rattle.std.specs.Fmt.{digit_glyph};
ghost use Rattle.std.specs.String.{string_bytes};
ghost use Rattle.history_model.specs.text.Commands.{capital_digits};
ghost use Rattle.view_status.specs.Producer.{producer_bytes};
ghost use Rattle.view_status.specs.Tokens.{member, text};

use crate::document::Document;
use itoa::Buffer;
use play_types::{MediaNames, Spec};
use std::alloc::{AllocError, Global};
use std::str;

/// Writes what a layer plays as a member.
pub(crate) fn write_producer(
    alloc: Global,
    spec: Spec,
    names: &MediaNames,
    document: &mut Document,
) -> Result<(), AllocError>
    ensures { OnOk result (document.new ≡ document.old ++ member "producer" (text (producer_bytes names.now spec))) }
{
    let word = producer(alloc, spec, names)?;
    document.text_member("producer", word.as_str())
}

/// Returns the name of a clip, a colour as `#` and eight digits, or a route. The name is empty if `names` has no clip of this number.
fn producer(alloc: Global, spec: Spec, names: &MediaNames) -> Result<String, AllocError>
    ensures { IfOk result (λ word. string_bytes word ≡ producer_bytes names.now spec) }
{
    let mut word = String::new(alloc);
    push_producer(&mut word, spec, names)?;
    Ok(word)
}

/// Adds the word of a producer.
fn push_producer(word: &mut String, spec: Spec, names: &MediaNames) -> Result<(), AllocError>
    ensures { OnOk result (string_bytes word.new ≡ string_bytes word.old ++ producer_bytes names.now spec) }
{
    match spec {
        Spec::Clip(id) => match names.get(id as usize) {
            Some(clip) => word.push_str(clip.name().as_str()),
            None => Ok(()),
        },
        Spec::Colour(value) => push_colour(word, value),
        Spec::RouteChannel(channel) => push_channel(word, u64::from(channel)),
        Spec::RouteLayer(place) => push_layer(word, place.channel(), place.layer()),
    }
}

/// Adds a route to a channel.
fn push_channel(word: &mut String, channel: u64) -> Result<(), AllocError>
    ensures { OnOk result (string_bytes word.new ≡ string_bytes word.old ++ (codes "route://" ++ decimal channel)) }
{
    word.push_str("route://")?;
    word.push_str(Buffer::new().format(channel))
}

/// Adds a route to a layer of a channel.
fn push_layer(word: &mut String, channel: u8, layer: u16) -> Result<(), AllocError>
    ensures { OnOk result (string_bytes word.new
        ≡ string_bytes word.old ++ (codes "route://" ++ (decimal channel ++ 45 ∷ decimal layer))) }
{
    word.push_str("route://")?;
    word.push_str(Buffer::new().format(channel))?;
    word.push_str("-")?;
    word.push_str(Buffer::new().format(layer))
}

/// Adds a colour.
fn push_colour(word: &mut String, value: u32) -> Result<(), AllocError>
    ensures { OnOk result (string_bytes word.new ≡ string_bytes word.old ++ (35 ∷ capital_digits 8 value)) }
{
    let digits = colour_word(value);
    word.push_str(str::from_utf8(&digits).unwrap())
}

/// Returns `#` and the eight hexadecimal digits of a colour, in capitals.
fn colour_word(value: u32) -> [u8; 9]
    ensures { result ≡ 35 ∷ capital_digits 8 value }
{
    [
        b'#',
        capital_digit(value / 0x1000_0000 % 16),
        capital_digit(value / 0x100_0000 % 16),
        capital_digit(value / 0x10_0000 % 16),
        capital_digit(value / 0x1_0000 % 16),
        capital_digit(value / 0x1000 % 16),
        capital_digit(value / 0x100 % 16),
        capital_digit(value / 0x10 % 16),
        capital_digit(value % 16),
    ]
}

/// Returns the hexadecimal digit of a number below 16, in capitals.
fn capital_digit(number: u32) -> u8
    requires { number < 16 }
    ensures { result ≡ digit_glyph true number }
{
    if number < 10 {
        b'0' + number as u8
    } else {
        b'A' + (number - 10) as u8
    }
}

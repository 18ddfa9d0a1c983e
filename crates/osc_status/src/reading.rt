//! Texts and arguments at the front of bytes.
ghost use Rattle.std.specs.Prelude.{◌≡◌, ◌==◌, length, option_map, position};
ghost use Rattle.std.specs.List.{list_any};
ghost use Rattle.osc_status.specs.Texts.{is_other, is_zero};
ghost use Rattle.osc_status.specs.inner.Reading.{number_at, padded_at, text_at, value_at};
ghost use Rattle.osc_status.specs.inner.Views.{bytes_view, number_view, text_view, value_view};

use crate::arg::OscArg;
use std::str;

/// Returns the bytes before the first zero, and the bytes after their padding, if zeros pad them to a multiple of four.
#[tactic(auto, unfolding(crate::specs::inner::Reading::padded_at))]
pub(crate) fn padded_at(bytes: &[u8]) -> Option<(&[u8], &[u8])>
    ensures { option_map bytes_view result ≡ padded_at bytes.now }
{
    let len = first_zero(bytes)?;
    let whole = len / 4 * 4 + 4;
    if bytes.len() < whole || has_other(&bytes[len..whole]) {
        return None;
    }
    Some((&bytes[..len], &bytes[whole..]))
}

/// Returns the text at the front, and the bytes after its padding.
#[tactic(auto, unfolding(crate::specs::inner::Reading::text_at))]
pub(crate) fn text_at(bytes: &[u8]) -> Option<(&str, &[u8])>
    ensures { option_map text_view result ≡ text_at bytes.now }
{
    let (word, rest) = padded_at(bytes)?;
    match str::from_utf8(word) {
        Ok(text) => Some((text, rest)),
        Err(_) => None,
    }
}

/// Returns the argument of a kind at the front, and the bytes after it: `i` is a number and `s` a word.
#[tactic(auto, unfolding(crate::specs::inner::Reading::value_at))]
pub(crate) fn value_at(kind: u8, bytes: &[u8]) -> Option<(OscArg<'_>, &[u8])>
    ensures { option_map value_view result ≡ value_at kind bytes.now }
{
    match kind {
        b'i' => {
            let (number, rest) = number_at(bytes)?;
            Some((OscArg::Int(number), rest))
        }
        b's' => {
            let (word, rest) = text_at(bytes)?;
            Some((OscArg::Word(word), rest))
        }
        _ => None,
    }
}

/// Returns the number of the four bytes at the front, and the bytes after them.
#[tactic(auto, unfolding(crate::specs::inner::Reading::number_at))]
fn number_at(bytes: &[u8]) -> Option<(i32, &[u8])>
    ensures { option_map number_view result ≡ number_at bytes.now }
{
    if bytes.len() < 4 {
        return None;
    }
    let (front, rest) = bytes.split_at(4);
    let number = i32::from_be_bytes([front[0], front[1], front[2], front[3]]);
    Some((number, rest))
}

/// Returns the place of the first zero byte.
fn first_zero(bytes: &[u8]) -> Option<usize>
    ensures { result ≡ position is_zero bytes.now }
{
    bytes.iter().position(|byte| *byte == 0)
}

/// Returns whether a byte is not zero.
fn has_other(bytes: &[u8]) -> bool
    ensures { result ≡ list_any is_other bytes.now }
{
    bytes.iter().any(|byte| *byte != 0)
}

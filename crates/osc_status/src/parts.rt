//! The parts of a message.
ghost use Rattle.std.specs.Prelude.{◌≡◌, true, false, is_some, IfOk, option_map, Some, Bool};
ghost use Rattle.osc_status.specs.inner.Reading.{kinds_of, parts_at, values_at};
ghost use Rattle.osc_status.specs.Written.{arg_value};
ghost use Rattle.osc_status.specs.inner.Views.{kinds_view, parts_view};

use crate::arg::{ArgList, OscArg, OscValue};
use crate::reading::{padded_at, text_at, value_at};
use play_types::Text;
use std::alloc::{AllocError, Global};

/// Returns the address of a message, the letters of the kinds of its arguments, and the bytes of the arguments.
#[tactic(auto, unfolding(crate::specs::inner::Reading::parts_at))]
pub(crate) fn parts_of(bytes: &[u8]) -> Option<(&str, &[u8], &[u8])>
    ensures { option_map parts_view result ≡ parts_at bytes.now }
{
    if bytes.first() != Some(&b'/') {
        return None;
    }
    let (address, rest) = text_at(bytes)?;
    let (letters, values) = padded_at(rest)?;
    let kinds = kinds_of(letters)?;
    Some((address, kinds, values))
}

/// Returns the letters after the comma at the front.
#[tactic(auto, unfolding(crate::specs::inner::Reading::kinds_of))]
fn kinds_of(letters: &[u8]) -> Option<&[u8]>
    ensures { option_map kinds_view result ≡ kinds_of letters.now }
{
    match letters {
        [b',', kinds @ ..] => Some(kinds),
        _ => None,
    }
}

/// Returns whether the bytes are arguments of these kinds, and nothing follows them.
pub(crate) fn are_values(kinds: &[u8], bytes: &[u8]) -> bool
    ensures { result ≡ is_some (values_at kinds.now bytes.now) }
{
    let mut rest = bytes;
    for kind in kinds {
        match value_at(*kind, rest) {
            Some((_, after)) => rest = after,
            None => return false,
        }
    }
    rest.is_empty()
}

/// Returns the arguments of these kinds in the bytes.
pub(crate) fn args_of(alloc: Global, kinds: &[u8], bytes: &[u8]) -> Result<ArgList, AllocError>
    requires { is_some (values_at kinds.now bytes.now) ≡ true }
    ensures { IfOk result (λ args. values_at kinds.now bytes.now ≡ Some args) }
{
    let mut args = ArgList::new(alloc);
    let mut rest = bytes;
    for kind in kinds {
        let (arg, after) = value_at(*kind, rest).unwrap();
        args.push(owned(alloc, arg)?)?;
        rest = after;
    }
    Ok(args)
}

/// Returns an argument with a copy of its word.
fn owned(alloc: Global, arg: OscArg<'_>) -> Result<OscValue, AllocError>
    ensures { IfOk result (λ value. value ≡ arg_value arg.entry) }
{
    match arg {
        OscArg::Int(number) => Ok(OscValue::Int(number)),
        OscArg::Word(word) => Ok(OscValue::Word(Text::copy(alloc, word)?)),
    }
}

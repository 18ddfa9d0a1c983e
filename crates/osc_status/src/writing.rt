//! Messages that are written.
ghost use Rattle.std.specs.Prelude.{◌≡◌, ◌∷◌, ◌++◌, [], true, false, All, map, flat_map};
ghost use Rattle.std.specs.List.{AllByRecursion, list_any};
ghost use Rattle.play_outside.specs.Sink.{Sends};
ghost use Rattle.play_outside.specs.Gathered.{Adds};
ghost use Rattle.osc_status.specs.Texts.{is_zero, padded};
ghost use Rattle.osc_status.specs.Message.{IsArg, IsMessage, begins_with, letter, letters, message_bytes, value_bytes};
ghost use Rattle.osc_status.specs.Written.{HasNoZero, arg_value, written_message};

use crate::arg::OscArg;
use crate::form::{Form, Pieces};
use crate::text::add_text;
use play_outside::{Sent, Sink};

/// Writes a message of the form of OSC 1.0: the address, a letter for each argument, and the arguments. Texts are UTF-8.
///
/// The address begins with `/`, and neither it nor a word has a zero character. What is written is a message, which
/// `read_message` reads back. A message of at most 4,096 bytes is one write. The result is `Failed` only if `to` failed, and
/// then a prefix of the message was written.
pub fn write_message<K: Sink>(address: &str, args: &[OscArg<'_>], to: &mut K) -> Sent
    requires slash { begins_with 47 address.now ≡ true }
    requires address { list_any is_zero address.now ≡ false }
    requires words { All HasNoZero args.now }
    ensures message { result ≡ Sent.All → IsMessage (written_message address.now args.now) }
    ensures sends { Sends result (message_bytes (written_message address.now args.now)) (K.state to.old) (K.state to.new) }
{
    let mut pieces = Pieces::new();
    add_text(Form::Raw, &[address.as_bytes()], &mut pieces, to)?;
    add_letters(args, &mut pieces, to)?;
    add_args(args, &mut pieces, to)?;
    pieces.finish(to)
}

/// Adds a comma and a letter for each argument, with their padding.
fn add_letters<K: Sink>(args: &[OscArg<'_>], pieces: &mut Pieces, to: &mut K) -> Sent
    ensures { Adds result (pieces.old ++ padded (letters (map arg_value args.now))) pieces.new (K.state to.old) (K.state to.new) }
{
    pieces.add(b",", to)?;
    add_each_letter(args, pieces, to)?;
    pieces.add(&[0; 4][(args.len() + 1) % 4..], to)
}

/// Adds a letter for each argument.
fn add_each_letter<K: Sink>(args: &[OscArg<'_>], pieces: &mut Pieces, to: &mut K) -> Sent
    ensures { Adds result (pieces.old ++ flat_map (λ arg. letter (arg_value arg) ∷ []) args.now) pieces.new (K.state to.old) (K.state to.new) }
{
    for arg in args {
        pieces.add(letter_of(arg), to)?;
    }
    Sent::All
}

/// Returns the letter of an argument: `i` for a number, and `s` for a word.
fn letter_of(arg: &OscArg<'_>) -> &'static [u8]
    ensures { result.now ≡ letter (arg_value arg.now) ∷ [] }
{
    match arg {
        OscArg::Int(_) => b"i",
        OscArg::Word(_) => b"s",
    }
}

/// Adds the arguments, one after another.
fn add_args<K: Sink>(args: &[OscArg<'_>], pieces: &mut Pieces, to: &mut K) -> Sent
    requires { All HasNoZero args.now }
    ensures fit { result ≡ Sent.All → AllByRecursion IsArg (map arg_value args.now) }
    ensures adds { Adds result (pieces.old ++ flat_map (λ arg. value_bytes (arg_value arg)) args.now) pieces.new (K.state to.old) (K.state to.new) }
{
    for arg in args {
        add_arg(arg, pieces, to)?;
    }
    Sent::All
}

/// Adds an argument: the four bytes of a number, the highest first, or a word with its padding.
fn add_arg<K: Sink>(arg: &OscArg<'_>, pieces: &mut Pieces, to: &mut K) -> Sent
    requires { HasNoZero arg.now }
    ensures fits { IsArg (arg_value arg.now) }
    ensures adds { Adds result (pieces.old ++ value_bytes (arg_value arg.now)) pieces.new (K.state to.old) (K.state to.new) }
{
    match *arg {
        OscArg::Int(number) => pieces.add(&number.to_be_bytes(), to),
        OscArg::Word(word) => add_text(Form::Raw, &[word.as_bytes()], pieces, to),
    }
}

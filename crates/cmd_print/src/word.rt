//! Words of a printed command, each after a space.
ghost use Rattle.std.specs.Prelude.{◌∷◌, ◌++◌, []};
ghost use Rattle.play_outside.specs.Gathered.{Adds};
ghost use Rattle.history_model.specs.text.Commands.{Plain, place_word, number_word, flag_words, recording_word};
ghost use Rattle.cmd_print.specs.inner.Bytes.{spaced};

use itoa::Buffer;
use play_outside::{Gather, Sent, Sink};
use play_types::{Place, RecName};

/// Adds a word without quotation marks.
pub(crate) fn add_word<const ROOM: usize, K: Sink>(
    word: &str,
    text: &mut Gather<ROOM>,
    to: &mut K,
) -> Sent
    ensures { Adds result (text.old ++ spaced (Plain word.now ∷ [])) text.new (K.state to.old) (K.state to.new) }
{
    text.add_parts(&[b" ", word.as_bytes()], to)
}

/// Adds a word if `is_set`.
pub(crate) fn add_flag<const ROOM: usize, K: Sink>(
    is_set: bool,
    word: &str,
    text: &mut Gather<ROOM>,
    to: &mut K,
) -> Sent
    ensures { Adds result (text.old ++ spaced (flag_words is_set word.now)) text.new (K.state to.old) (K.state to.new) }
{
    if is_set {
        add_word(word, text, to)
    } else {
        Sent::All
    }
}

/// Adds a number in digits.
pub(crate) fn add_number<const ROOM: usize, K: Sink>(
    number: u32,
    text: &mut Gather<ROOM>,
    to: &mut K,
) -> Sent
    ensures { Adds result (text.old ++ spaced (number_word number ∷ [])) text.new (K.state to.old) (K.state to.new) }
{
    text.add_parts(&[b" ", Buffer::new().format(number).as_bytes()], to)
}

/// Adds a place: its channel, a dash and its layer.
pub(crate) fn add_place<const ROOM: usize, K: Sink>(
    place: Place,
    text: &mut Gather<ROOM>,
    to: &mut K,
) -> Sent
    ensures { Adds result (text.old ++ spaced (place_word place ∷ [])) text.new (K.state to.old) (K.state to.new) }
{
    text.add_parts(
        &[
            b" ",
            Buffer::new().format(place.channel()).as_bytes(),
            b"-",
            Buffer::new().format(place.layer()).as_bytes(),
        ],
        to,
    )
}

/// Adds the name of a recording.
pub(crate) fn add_rec_name<const ROOM: usize, K: Sink>(
    name: RecName,
    text: &mut Gather<ROOM>,
    to: &mut K,
) -> Sent
    ensures { Adds result (text.old ++ spaced (recording_word name ∷ [])) text.new (K.state to.old) (K.state to.new) }
{
    text.add_parts(&[b" ", name.as_bytes()], to)
}

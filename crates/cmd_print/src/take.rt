//! Takes: a producer and its options.
ghost use Rattle.std.specs.Prelude.{◌≡◌, ◌<◌, ◌∷◌, [], ◌++◌, true, codes};
ghost use Rattle.std.specs.Fmt.{digit_glyph};
ghost use Rattle.play_outside.specs.Gathered.{Adds};
ghost use Rattle.history_model.specs.text.Commands.{Plain, capital_digits, direction_text, flag_words, number_word, part_words, producer_word, take_words, timed_words, transition_words};
ghost use Rattle.cmd_print.specs.inner.Bytes.{spaced};

use crate::quote::add_name;
use crate::word::add_flag;
use itoa::Buffer;
use play_outside::{Gather, Sent, Sink};
use play_types::{Kind, MediaNames, Spec, Take, Trans};

/// Adds a take: its producer, the part of a clip that is played, its transition, and whether it starts by itself.
pub(crate) fn add_take<const ROOM: usize, K: Sink>(
    take: Take,
    media: &MediaNames,
    text: &mut Gather<ROOM>,
    to: &mut K,
) -> Sent
    ensures { Adds result (text.old ++ spaced (take_words media.now take)) text.new (K.state to.old) (K.state to.new) }
{
    add_producer(take.spec(), media, text, to)?;
    add_part(take, text, to)?;
    add_transition(take.trans(), text, to)?;
    add_flag(take.auto(), "AUTO", text, to)
}

/// Adds a producer.
fn add_producer<const ROOM: usize, K: Sink>(
    spec: Spec,
    media: &MediaNames,
    text: &mut Gather<ROOM>,
    to: &mut K,
) -> Sent
    ensures { Adds result (text.old ++ spaced (producer_word media.now spec ∷ [])) text.new (K.state to.old) (K.state to.new) }
{
    match spec {
        Spec::Clip(id) => match media.get(id as usize) {
            Some(clip) => add_name(clip.name().as_str(), text, to),
            None => add_name("", text, to),
        },
        Spec::Colour(value) => text.add_parts(&[b" #", &capital_digits(value)], to),
        Spec::RouteChannel(channel) => text.add_parts(
            &[b" route://", Buffer::new().format(channel).as_bytes()],
            to,
        ),
        Spec::RouteLayer(place) => text.add_parts(
            &[
                b" route://",
                Buffer::new().format(place.channel()).as_bytes(),
                b"-",
                Buffer::new().format(place.layer()).as_bytes(),
            ],
            to,
        ),
    }
}

/// Returns the eight hexadecimal digits of a number, in capitals.
fn capital_digits(number: u32) -> [u8; 8]
    ensures { result ≡ capital_digits 8 number }
{
    [
        capital_digit(number / 0x1000_0000 % 16),
        capital_digit(number / 0x100_0000 % 16),
        capital_digit(number / 0x10_0000 % 16),
        capital_digit(number / 0x1_0000 % 16),
        capital_digit(number / 0x1000 % 16),
        capital_digit(number / 0x100 % 16),
        capital_digit(number / 0x10 % 16),
        capital_digit(number % 16),
    ]
}

/// Returns the hexadecimal digit of a number below 16, in capitals.
fn capital_digit(number: u32) -> u8
    requires { number < 16 }
    ensures { result ≡ digit_glyph true number }
{
    if number < 10 {
        b'0' + number as u8
    } else {
        b'A' + (number - 10) as u8
    }
}

/// Adds which frames of a clip are played, and whether it is looped. Nothing is added for another producer.
fn add_part<const ROOM: usize, K: Sink>(take: Take, text: &mut Gather<ROOM>, to: &mut K) -> Sent
    ensures { Adds result (text.old ++ spaced (part_words take.spec take)) text.new (K.state to.old) (K.state to.new) }
{
    match take.spec() {
        Spec::Clip(_) => add_clip_part(take.looped(), take.seek(), take.length(), text, to),
        Spec::Colour(_) | Spec::RouteChannel(_) | Spec::RouteLayer(_) => Sent::All,
    }
}

/// Adds whether a clip is looped, the first frame that is played, counted from 0, and the number of frames.
fn add_clip_part<const ROOM: usize, K: Sink>(
    looped: bool,
    seek: u32,
    length: u32,
    text: &mut Gather<ROOM>,
    to: &mut K,
) -> Sent
    ensures { Adds result
        (text.old ++ spaced (flag_words looped (codes "LOOP")
        ++ Plain (codes "SEEK") ∷ number_word seek ∷ Plain (codes "LENGTH") ∷ number_word length ∷ []))
        text.new (K.state to.old) (K.state to.new) }
{
    add_flag(looped, "LOOP", text, to)?;
    text.add_parts(
        &[
            b" SEEK ",
            Buffer::new().format(seek).as_bytes(),
            b" LENGTH ",
            Buffer::new().format(length).as_bytes(),
        ],
        to,
    )
}

/// Adds a transition, unless it is a cut.
fn add_transition<const ROOM: usize, K: Sink>(
    trans: Trans,
    text: &mut Gather<ROOM>,
    to: &mut K,
) -> Sent
    ensures { Adds result (text.old ++ spaced (transition_words trans.kind trans)) text.new (K.state to.old) (K.state to.new) }
{
    match trans.kind() {
        Kind::Cut => Sent::All,
        Kind::Mix | Kind::Push | Kind::Slide | Kind::Wipe => add_timed(trans, text, to),
    }
}

/// Adds the kind of a transition, its duration in ticks, its curve and its direction.
fn add_timed<const ROOM: usize, K: Sink>(trans: Trans, text: &mut Gather<ROOM>, to: &mut K) -> Sent
    ensures { Adds result (text.old ++ spaced (timed_words trans.kind trans)) text.new (K.state to.old) (K.state to.new) }
{
    text.add_parts(
        &[
            b" ",
            trans.kind().as_str().as_bytes(),
            b" ",
            Buffer::new().format(trans.duration()).as_bytes(),
            b" ",
            trans.curve().as_str().as_bytes(),
            b" ",
            direction_name(trans.leftward()).as_bytes(),
        ],
        to,
    )
}

/// Returns the word of a direction.
fn direction_name(leftward: bool) -> &'static str
    ensures { result.now ≡ direction_text leftward }
{
    if leftward { "LEFT" } else { "RIGHT" }
}

//! The forms of MIXER.
ghost use Rattle.std.specs.Prelude.{◌≡◌, ◌≤◌, ◌<◌, IfOk, IfSome, pos, ℤ};
ghost use Rattle.std.specs.Str.{chars};
ghost use Rattle.play_types.specs.Setting.{AreValues, IsWithin};
ghost use Rattle.play_types.specs.declared.transition.TheConstants.{MAX_DURATION};
ghost use Rattle.history_model.specs.commands.Mixer.{deferral_at, micros_at, mixer, mixer_command, number_of, numbers_of, property_command, reset, timing_at, timing_of, up_to};
ghost use Rattle.cmd_parse.specs.inner.Mixer.{IsNumber};

use crate::area::Area;
use crate::line::Line;
use fixed_params::read_micro;
use play_types::{
    Cmd, Curve, MAX_DURATION, MAX_MICROS, MICROS_PER_UNIT, Place, Prop, Refusal, Setting, is_word,
};
use std::marker::Model;

/// Reads a MIXER: an area at position 1, and a property, COMMIT or CLEAR at position 2.
#[tactic(auto, unfolding(history_model::specs::commands::Mixer::mixer))]
pub fn mixer(line: &Line<'_>) -> Result<Cmd, Refusal>
    ensures { result ≡ mixer line.now }
{
    let area = line.area(1)?;
    let word = line.word(2)?;
    mixer_command(line, area, word)
}

/// Returns the command of a MIXER with this area, and with this word at position 2.
fn mixer_command(line: &Line<'_>, area: Area, word: &str) -> Result<Cmd, Refusal>
    ensures { result ≡ mixer_command line.now area (chars word.now) }
{
    if is_word(word, "COMMIT") {
        line.end(3)?;
        return Ok(Cmd::CommitMixer(area.channel()));
    }
    if is_word(word, "CLEAR") {
        line.end(3)?;
        return Ok(reset(area));
    }
    match Prop::read(word) {
        Some(property) => property_command(line, area.place(), property),
        None => Err(line.illegal(2)),
    }
}

/// Returns the command that sets all mixer values of an area to their defaults.
fn reset(area: Area) -> Cmd
    ensures { result ≡ reset area.channel area.layer }
{
    if area.has_layer() {
        Cmd::ResetLayer(area.place())
    } else {
        Cmd::ResetChannel(area.channel())
    }
}

/// Returns the command that asks for the value of a property, or that sets the property if words follow.
fn property_command(line: &Line<'_>, place: Place, property: Prop) -> Result<Cmd, Refusal>
    ensures { result ≡ property_command line.now place property }
{
    if line.len() <= 3 {
        return Ok(Cmd::Value(place, property));
    }
    let numbers = numbers_of(line, property)?;
    let timing = timing_of(line, property)?;
    let setting = Setting::new(
        place,
        property,
        numbers,
        timing.duration,
        timing.curve,
        timing.deferred,
    );
    Ok(Cmd::Set(setting.unwrap()))
}

/// Returns the four numbers of a property in millionths, read from position 3 on. A property of one number has 0 for the
/// other three.
#[tactic(auto, unfolding(history_model::specs::commands::Mixer::numbers_of))]
fn numbers_of(line: &Line<'_>, property: Prop) -> Result<[i64; 4], Refusal>
    ensures value { result ≡ numbers_of line.now property }
    ensures range { IfOk result (AreValues property) }
{
    let first = micros_at(line, 3, property)?;
    match property {
        Prop::Opacity | Prop::Volume | Prop::Keyer => Ok([first, 0, 0, 0]),
        Prop::Fill | Prop::Clip => {
            let second = micros_at(line, 4, property)?;
            let third = micros_at(line, 5, property)?;
            let fourth = micros_at(line, 6, property)?;
            Ok([first, second, third, fourth])
        }
    }
}

/// Returns the number of a property at a position, in millionths.
fn micros_at(line: &Line<'_>, at: usize, property: Prop) -> Result<i64, Refusal>
    ensures value { result ≡ micros_at line.now at property }
    ensures range { IfOk result (IsNumber property) }
{
    let word = line.word(at)?;
    match number_of(property, word) {
        Some(number) => Ok(number),
        None => Err(line.illegal(at)),
    }
}

/// Returns the number of a property that a word writes, in millionths.
fn number_of(property: Prop, word: &str) -> Option<i64>
    ensures value { result ≡ number_of property (chars word.now) }
    ensures range { IfSome result (IsNumber property) }
{
    match property {
        Prop::Opacity => up_to(MICROS_PER_UNIT, read_micro(word)?),
        Prop::Volume => up_to(MAX_MICROS, read_micro(word)?),
        Prop::Fill | Prop::Clip => read_micro(word),
        Prop::Keyer => keyer(word),
    }
}

/// Returns the number if it is from 0 to `most`.
fn up_to(most: i64, number: i64) -> Option<i64>
    ensures value { result ≡ up_to most number }
    ensures range { IfSome result (IsWithin (pos 0) most) }
{
    if 0 <= number && number <= most {
        Some(number)
    } else {
        None
    }
}

/// Returns the number of a keyer in millionths: 0 for the word `0`, which is off, and `MICROS_PER_UNIT` for the word `1`.
fn keyer(word: &str) -> Option<i64>
    ensures { result ≡ number_of Prop.Keyer (chars word.now) }
{
    match word {
        "0" => Some(0),
        "1" => Some(MICROS_PER_UNIT),
        _ => None,
    }
}

/// The ticks after which a value is reached, at most `MAX_DURATION`, the curve along which it goes, and whether it waits for a
/// MIXER COMMIT.
#[derive(Clone, Copy)]
struct Timing {
    duration: u32,
    curve: Curve,
    deferred: bool,
}

impl Model for Timing {
    ghost use Rattle.std.specs.Prelude.{◌≤◌};
    ghost use Rattle.play_types.specs.declared.transition.TheConstants.{MAX_DURATION};
    ghost use Rattle.history_model.specs.commands.Mixer.{Timing};

    ghost Value = { Timing };

    ghost view = { λ t. record { duration = t.duration; curve = t.curve; deferred = t.deferred } };

    ghost invariant = { λ t. t.duration ≤ MAX_DURATION };

    ghost inverse = { λ v. record { duration = v.duration; curve = v.curve; deferred = v.deferred } };
}

/// Reads the timing after the numbers of a property. A keyer has no duration and no curve.
fn timing_of(line: &Line<'_>, property: Prop) -> Result<Timing, Refusal>
    ensures { result ≡ timing_of line.now property }
{
    match property {
        Prop::Opacity | Prop::Volume => timing_at(line, 4),
        Prop::Fill | Prop::Clip => timing_at(line, 7),
        Prop::Keyer => deferral_at(line, 4, 0, Curve::Linear),
    }
}

/// Reads the timing from a position to the end of the line: a duration, which a curve may follow, or neither, and then
/// DEFER or nothing.
#[tactic(auto, unfolding(history_model::specs::commands::Mixer::timing_at))]
fn timing_at(line: &Line<'_>, at: usize) -> Result<Timing, Refusal>
    requires { at < 100 }
    ensures { result ≡ timing_at line.now at }
{
    if at >= line.len() || line.stands(at, "DEFER") {
        return deferral_at(line, at, 0, Curve::Linear);
    }
    let duration = line.number(at, 0, MAX_DURATION)?;
    match line.curve(at + 1) {
        Some(curve) => deferral_at(line, at + 2, duration, curve),
        None => deferral_at(line, at + 1, duration, Curve::Linear),
    }
}

/// Returns the timing of this duration and this curve: deferred if the rest of the line, from a position on, is DEFER, and
/// not if it is empty. Anything else is refused as `Illegal`.
fn deferral_at(line: &Line<'_>, at: usize, duration: u32, curve: Curve) -> Result<Timing, Refusal>
    requires short { duration ≤ MAX_DURATION }
    requires early { at < 200 }
    ensures { result ≡ deferral_at line.now at duration curve }
{
    let deferred = line.flag(at, "DEFER")?;
    Ok(Timing {
        duration,
        curve,
        deferred,
    })
}

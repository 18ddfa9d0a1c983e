//! Settings of the mixer.
ghost use Rattle.std.specs.Prelude.{◌≡◌, ◌∷◌, [], ◌++◌, All, map, take, codes};
ghost use Rattle.std.specs.List.{flat_map};
ghost use Rattle.amcp_text.specs.Micros.{printed_micro};
ghost use Rattle.play_types.specs.Setting.{IsWide};
ghost use Rattle.play_types.specs.Words.{curve_text};
ghost use Rattle.play_outside.specs.Gathered.{Adds};
ghost use Rattle.history_model.specs.stage.Answer.{number_count};
ghost use Rattle.history_model.specs.text.Commands.{Plain, flag_words, micro_word, number_word, setting_words, timing_words};
ghost use Rattle.cmd_print.specs.inner.Bytes.{spaced};

use crate::word::{add_flag, add_number, add_word};
use fixed_params::MicroText;
use play_outside::{Gather, Sent, Sink};
use play_types::{Curve, Prop, Setting};

/// Adds the words of a setting after its place: its property, its numbers, its timing, and DEFER if it waits for a COMMIT.
pub(crate) fn add_setting<const ROOM: usize, K: Sink>(
    setting: Setting,
    text: &mut Gather<ROOM>,
    to: &mut K,
) -> Sent
    ensures { Adds result (text.old ++ spaced (setting_words setting)) text.new (K.state to.old) (K.state to.new) }
{
    add_word(setting.prop().as_str(), text, to)?;
    add_numbers(setting, text, to)?;
    add_timing(setting, text, to)?;
    add_flag(setting.deferred(), "DEFER", text, to)
}

/// Adds the numbers that the property of a setting has.
fn add_numbers<const ROOM: usize, K: Sink>(
    setting: Setting,
    text: &mut Gather<ROOM>,
    to: &mut K,
) -> Sent
    ensures { Adds result (text.old ++ spaced (map micro_word (take (number_count setting.prop) setting.values))) text.new (K.state to.old) (K.state to.new) }
{
    let values = setting.values();
    match setting.prop() {
        Prop::Opacity | Prop::Volume | Prop::Keyer => add_micros(&values[..1], text, to),
        Prop::Fill | Prop::Clip => add_micros(&values, text, to),
    }
}

/// Adds numbers in millionths.
fn add_micros<const ROOM: usize, K: Sink>(
    values: &[i64],
    text: &mut Gather<ROOM>,
    to: &mut K,
) -> Sent
    requires { All IsWide values.now }
    ensures { Adds result (text.old ++ flat_map (λ value. 32 ∷ printed_micro value) values.now) text.new (K.state to.old) (K.state to.new) }
{
    for value in values {
        text.add_parts(&[b" ", MicroText::of(*value).as_bytes()], to)?;
    }
    Sent::All
}

/// Adds the duration and the curve of a setting, except for a keyer.
fn add_timing<const ROOM: usize, K: Sink>(
    setting: Setting,
    text: &mut Gather<ROOM>,
    to: &mut K,
) -> Sent
    ensures { Adds result (text.old ++ spaced (timing_words setting.prop setting)) text.new (K.state to.old) (K.state to.new) }
{
    match setting.prop() {
        Prop::Opacity | Prop::Fill | Prop::Clip | Prop::Volume => {
            add_tween(setting.duration(), setting.curve(), text, to)
        }
        Prop::Keyer => Sent::All,
    }
}

/// Adds a duration in ticks and a curve.
fn add_tween<const ROOM: usize, K: Sink>(
    duration: u32,
    curve: Curve,
    text: &mut Gather<ROOM>,
    to: &mut K,
) -> Sent
    ensures { Adds result (text.old ++ spaced (number_word duration ∷ Plain (curve_text curve) ∷ [])) text.new (K.state to.old) (K.state to.new) }
{
    add_number(duration, text, to)?;
    add_word(curve.as_str(), text, to)
}

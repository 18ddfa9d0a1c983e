//! Mixer values of a place.
ghost use Rattle.std.specs.Prelude.{◌≡◌, ◌≤◌, ◌↔◌, IsTrue, IsSome, IfSome, All};
ghost use Rattle.std.specs.Str.{chars};
ghost use Rattle.play_types.specs.Words.{are_capitals, prop_of, prop_text};
ghost use Rattle.play_types.specs.Setting.{AreValues, IsSetting, IsWide, setting_of};
ghost use Rattle.play_types.specs.declared.transition.TheConstants.{MAX_DURATION};

use crate::place::Place;
use crate::transition::{Curve, MAX_DURATION};
use crate::word::is_word;
use std::marker::Model;

/// The number 1 in millionths, in which mixer values are given.
pub const MICROS_PER_UNIT: i64 = 1_000_000;

/// The greatest mixer value, in millionths.
pub const MAX_MICROS: i64 = 1_000_000_000;

/// The most settings of a channel that wait for a MIXER COMMIT.
pub const MAX_WAITING_SETTINGS: usize = 1_024;

/// A mixer value.
#[derive(Clone, Copy, Debug, PartialEq, Eq)]
pub enum Prop {
    /// One number, 0 to 1.
    Opacity,
    /// Four numbers, -1000 to 1000: where the picture's left and top edge lie, and its width and height.
    Fill,
    /// Four numbers, -1000 to 1000: the left and top edge, width and height of what is kept of the frame.
    Clip,
    /// One number, 0 to 1000.
    Volume,
    /// 0 or 1.
    Keyer,
}

/// All properties.
const PROPS: [Prop; 5] = [
    Prop::Opacity,
    Prop::Fill,
    Prop::Clip,
    Prop::Volume,
    Prop::Keyer,
];

impl Prop {
    /// Returns the property in capitals, as MIXER names it.
    pub fn as_str(self) -> &'static str
        ensures text { result.now ≡ prop_text self }
        ensures capitals { IsTrue (are_capitals result.now) }
    {
        match self {
            Prop::Opacity => "OPACITY",
            Prop::Fill => "FILL",
            Prop::Clip => "CLIP",
            Prop::Volume => "VOLUME",
            Prop::Keyer => "KEYER",
        }
    }

    /// Returns the property that a word names, ignoring the case of ASCII letters.
    #[tactic(auto, unfolding(crate::specs::Words::prop_of))]
    pub fn read(word: &str) -> Option<Prop>
        ensures { result ≡ prop_of (chars word.now) }
    {
        PROPS
            .iter()
            .copied()
            .find(|prop| is_word(word, prop.as_str()))
    }
}

/// A mixer value that is to be reached from the current one in `duration` ticks.
///
/// Values are millionths, and those that the property does not use are 0. A keyer has duration 0.
#[derive(Clone, Copy, Debug, PartialEq, Eq)]
pub struct Setting {
    place: Place,
    prop: Prop,
    values: [i64; 4],
    duration: u32,
    curve: Curve,
    deferred: bool,
}

impl Model for Setting {
    ghost use Rattle.play_types.specs.Setting.{SettingView, IsSetting};

    ghost Value = { SettingView };

    ghost view = { λ s. record { place = s.place; prop = s.prop; values = s.values; duration = s.duration; curve = s.curve; deferred = s.deferred } };

    ghost invariant = { λ s. IsSetting (record { place = s.place; prop = s.prop; values = s.values; duration = s.duration; curve = s.curve; deferred = s.deferred }) };

    ghost inverse = { λ v. record { place = v.place; prop = v.prop; values = v.values; duration = v.duration; curve = v.curve; deferred = v.deferred } };
}

impl Setting {
    /// Creates a setting. It returns `None` exactly if the duration is above 1,000,000 or a value that the property uses
    /// is out of its range. Values that the property does not use are dropped, and so are the duration and the curve of a
    /// keyer.
    pub fn new(
        place: Place,
        prop: Prop,
        values: [i64; 4],
        duration: u32,
        curve: Curve,
        deferred: bool,
    ) -> Option<Setting>
        ensures exact { IsSome result ↔ ((duration ≤ MAX_DURATION) × AreValues prop values) }
        ensures value { IfSome result
            (λ s. s ≡ setting_of place prop values duration curve deferred) }
    {
        if duration > MAX_DURATION || !are_values(prop, values) {
            return None;
        }
        let (values, duration, curve) = match prop {
            Prop::Opacity | Prop::Volume => ([values[0], 0, 0, 0], duration, curve),
            Prop::Fill | Prop::Clip => (values, duration, curve),
            Prop::Keyer => ([values[0], 0, 0, 0], 0, Curve::Linear),
        };
        Some(Setting {
            place,
            prop,
            values,
            duration,
            curve,
            deferred,
        })
    }

    /// Returns the place whose mixer value is set.
    pub fn place(self) -> Place
        ensures { result ≡ self.place }
    {
        self.place
    }

    /// Returns the property that is set.
    pub fn prop(self) -> Prop
        ensures { result ≡ self.prop }
    {
        self.prop
    }

    /// Returns the values in millionths. Those that the property does not use are 0.
    pub fn values(self) -> [i64; 4]
        ensures value { result ≡ self.values }
        ensures range { IsSetting self }
    {
        self.values
    }

    /// Returns the duration in ticks, 0 to 1,000,000.
    pub fn duration(self) -> u32
        ensures value { result ≡ self.duration }
        ensures range { self.duration ≤ MAX_DURATION }
    {
        self.duration
    }

    /// Returns the curve that the value follows.
    pub fn curve(self) -> Curve
        ensures { result ≡ self.curve }
    {
        self.curve
    }

    /// Returns whether the setting waits for a MIXER COMMIT.
    pub fn deferred(self) -> bool
        ensures { result ≡ self.deferred }
    {
        self.deferred
    }
}

/// Returns whether each number, in millionths, is within -1000 to 1000.
pub(crate) fn are_wide(values: &[i64]) -> bool
    ensures { IsTrue result ↔ All IsWide values.now }
{
    values
        .iter()
        .all(|value| (-MAX_MICROS..=MAX_MICROS).contains(value))
}

/// Returns whether the values that the property uses are in its range.
fn are_values(prop: Prop, values: [i64; 4]) -> bool
    ensures { IsTrue result ↔ AreValues prop values }
{
    match prop {
        Prop::Opacity => (0..=MICROS_PER_UNIT).contains(&values[0]),
        Prop::Volume => (0..=MAX_MICROS).contains(&values[0]),
        Prop::Fill | Prop::Clip => are_wide(&values),
        Prop::Keyer => values[0] == 0 || values[0] == MICROS_PER_UNIT,
    }
}

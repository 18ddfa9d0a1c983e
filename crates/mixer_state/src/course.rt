//! The course of a property of a place: its numbers from one setting to the next.
ghost use Rattle.std.specs.Prelude.{◌≡◌, ◌<◌, ◌≤◌, All};
ghost use Rattle.play_types.specs.Setting.{IsWide, number_at};
ghost use Rattle.history_model.specs.stage.Value.{default_of};
ghost use Rattle.mixer_state.specs.Course.{numbers_at, set_out, standing};
ghost use Rattle.mixer_state.specs.Ranges.{AreNumbers, IsCourse};

use mixer_tween::Tween;
use play_types::{Curve, MICROS_PER_UNIT, Prop, Setting};

/// The course of the four numbers of a property, in millionths. They leave `from` together after `start` ticks, and reach `to`
/// `duration` ticks later.
#[derive(Clone, Copy, Debug)]
pub(crate) struct Course {
    from: [i64; 4],
    to: [i64; 4],
    start: u64,
    duration: u32,
    curve: Curve,
}

impl Course {
    /// Returns the course of a property that stays at its default.
    pub(crate) fn standing(prop: Prop) -> Course
        ensures { result ≡ standing (default_of prop) }
    {
        let values = default_of(prop);
        Course {
            from: values,
            to: values,
            start: 0,
            duration: 0,
            curve: Curve::Linear,
        }
    }

    /// Returns the numbers of a property after `ticks` ticks.
    pub(crate) fn value(&self, prop: Prop, ticks: u64) -> [i64; 4]
        requires { IsCourse prop ticks self.now }
        ensures value { result ≡ numbers_at self.now ticks }
        ensures range { AreNumbers prop result }
    {
        self.at(ticks)
    }

    /// Returns the course that a setting starts after `ticks` ticks, from the numbers at that time.
    pub(crate) fn set_out(&self, setting: &Setting, ticks: u64) -> Course
        requires { IsCourse setting.now.prop ticks self.now }
        ensures value { result ≡ set_out ticks setting.now self.now }
        ensures range { IsCourse setting.now.prop ticks result }
    {
        Course {
            from: self.at(ticks),
            to: setting.values(),
            start: ticks,
            duration: setting.duration(),
            curve: setting.curve(),
        }
    }

    /// Returns the numbers after `ticks` ticks.
    fn at(&self, ticks: u64) -> [i64; 4]
        requires started { self.now.start ≤ ticks }
        requires from { All IsWide self.now.from }
        requires to { All IsWide self.now.to }
        ensures { result ≡ numbers_at self.now ticks }
    {
        [
            self.tween(0).at(ticks),
            self.tween(1).at(ticks),
            self.tween(2).at(ticks),
            self.tween(3).at(ticks),
        ]
    }

    /// Returns the tween of one of the numbers.
    fn tween(&self, at: usize) -> Tween
        requires { at < 4 }
        ensures { result ≡ record {
          from = number_at self.now.from at;
          to = number_at self.now.to at;
          start = self.now.start;
          duration = self.now.duration;
          curve = self.now.curve;
        } }
    {
        Tween {
            from: self.from[at],
            to: self.to[at],
            start: self.start,
            duration: self.duration,
            curve: self.curve,
        }
    }
}

/// Returns the value of a property without any setting, in millionths.
fn default_of(prop: Prop) -> [i64; 4]
    ensures { result ≡ default_of prop }
{
    match prop {
        Prop::Opacity | Prop::Volume => [MICROS_PER_UNIT, 0, 0, 0],
        Prop::Fill | Prop::Clip => [0, 0, MICROS_PER_UNIT, MICROS_PER_UNIT],
        Prop::Keyer => [0; 4],
    }
}

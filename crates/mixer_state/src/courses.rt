//! The mixer values of a place.
ghost use Rattle.std.specs.Prelude.{◌≡◌};
ghost use Rattle.history_model.specs.stage.Answer.{number_count};
ghost use Rattle.mixer_state.specs.Entries.{all_standing, course_of, with_course};
ghost use Rattle.mixer_state.specs.inner.Changes.{courses_after};
ghost use Rattle.mixer_state.specs.Ranges.{AreCourses};

use crate::course::Course;
use play_types::{Prop, Setting};

/// The course of each property of a place.
#[derive(Clone, Copy, Debug)]
pub(crate) struct Courses {
    opacity: Course,
    fill: Course,
    clip: Course,
    volume: Course,
    keyer: Course,
}

impl Courses {
    /// Returns the courses of a place without an entry: all properties stay at their defaults.
    pub(crate) fn standing() -> Courses
        ensures { result ≡ all_standing }
    {
        Courses {
            opacity: Course::standing(Prop::Opacity),
            fill: Course::standing(Prop::Fill),
            clip: Course::standing(Prop::Clip),
            volume: Course::standing(Prop::Volume),
            keyer: Course::standing(Prop::Keyer),
        }
    }

    /// Returns the course of a property.
    pub(crate) fn get(&self, prop: Prop) -> Course
        ensures { result ≡ course_of self.now prop }
    {
        match prop {
            Prop::Opacity => self.opacity,
            Prop::Fill => self.fill,
            Prop::Clip => self.clip,
            Prop::Volume => self.volume,
            Prop::Keyer => self.keyer,
        }
    }

    /// Returns the courses, with the one of the setting's property started anew after `ticks` ticks.
    pub(crate) fn after(self, setting: &Setting, ticks: u64) -> Courses
        requires { AreCourses ticks self }
        ensures value { result ≡ courses_after ticks setting.now self }
        ensures range { AreCourses ticks result }
    {
        let prop = setting.prop();
        let course = self.get(prop).set_out(setting, ticks);
        self.with(prop, course)
    }

    /// Returns the courses with another one for a property.
    pub(crate) fn with(self, prop: Prop, course: Course) -> Courses
        ensures { result ≡ with_course prop course self }
    {
        match prop {
            Prop::Opacity => Courses {
                opacity: course,
                ..self
            },
            Prop::Fill => Courses {
                fill: course,
                ..self
            },
            Prop::Clip => Courses {
                clip: course,
                ..self
            },
            Prop::Volume => Courses {
                volume: course,
                ..self
            },
            Prop::Keyer => Courses {
                keyer: course,
                ..self
            },
        }
    }
}

/// Returns how many numbers the value of a property has.
pub(crate) fn number_count(prop: Prop) -> u8
    ensures { result ≡ number_count prop }
{
    match prop {
        Prop::Opacity | Prop::Volume | Prop::Keyer => 1,
        Prop::Fill | Prop::Clip => 4,
    }
}

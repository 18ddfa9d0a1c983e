//! How a picture is replaced by the next one.
ghost use Rattle.std.specs.Prelude.{◌≡◌, ◌≤◌, ◌↔◌, IsTrue, IsSome, IfSome};
ghost use Rattle.std.specs.Str.{chars};
ghost use Rattle.play_types.specs.Words.{are_capitals, curve_of, curve_text, kind_of, kind_text};
ghost use Rattle.play_types.specs.Transition.{trans_of, cut};
ghost use Rattle.play_types.specs.declared.transition.TheConstants.{MAX_DURATION};

use crate::word::is_word;
use std::marker::Model;

/// The longest transition or tween, in ticks.
pub const MAX_DURATION: u32 = 1_000_000;

/// The number of steps in which a transition with a curve other than linear is drawn.
pub const EASED_STEPS: u32 = 1_000_000;

/// The kind of a transition.
#[derive(Clone, Copy, Debug, PartialEq, Eq)]
pub enum Kind {
    /// The new picture replaces the old one at once.
    Cut,
    /// Both are mixed.
    Mix,
    /// The new picture pushes the old one out.
    Push,
    /// The new picture slides over the old one.
    Slide,
    /// An edge uncovers the new picture.
    Wipe,
}

/// All kinds of transition.
const KINDS: [Kind; 5] = [Kind::Cut, Kind::Mix, Kind::Push, Kind::Slide, Kind::Wipe];

impl Kind {
    /// Returns the kind in capitals, as options name it.
    pub fn as_str(self) -> &'static str
        ensures text { result.now ≡ kind_text self }
        ensures capitals { IsTrue (are_capitals result.now) }
    {
        match self {
            Kind::Cut => "CUT",
            Kind::Mix => "MIX",
            Kind::Push => "PUSH",
            Kind::Slide => "SLIDE",
            Kind::Wipe => "WIPE",
        }
    }

    /// Returns the kind that a word names, ignoring the case of ASCII letters.
    #[tactic(auto, unfolding(crate::specs::Words::kind_of))]
    pub fn read(word: &str) -> Option<Kind>
        ensures { result ≡ kind_of (chars word.now) }
    {
        KINDS
            .iter()
            .copied()
            .find(|kind| is_word(word, kind.as_str()))
    }
}

/// How a value goes from one end of a tween or of a transition to the other.
#[derive(Clone, Copy, Debug, PartialEq, Eq)]
pub enum Curve {
    /// In equal steps.
    Linear,
    /// Slowly at first, by the square of the time.
    EaseInQuad,
    /// Slowly at the end, by the square of the time that is left.
    EaseOutQuad,
    /// More slowly at first, by the cube of the time.
    EaseInCubic,
    /// More slowly at the end, by the cube of the time that is left.
    EaseOutCubic,
}

/// All curves.
const CURVES: [Curve; 5] = [
    Curve::Linear,
    Curve::EaseInQuad,
    Curve::EaseOutQuad,
    Curve::EaseInCubic,
    Curve::EaseOutCubic,
];

impl Curve {
    /// Returns the curve in capitals, as options name it.
    pub fn as_str(self) -> &'static str
        ensures text { result.now ≡ curve_text self }
        ensures capitals { IsTrue (are_capitals result.now) }
    {
        match self {
            Curve::Linear => "LINEAR",
            Curve::EaseInQuad => "EASEINQUAD",
            Curve::EaseOutQuad => "EASEOUTQUAD",
            Curve::EaseInCubic => "EASEINCUBIC",
            Curve::EaseOutCubic => "EASEOUTCUBIC",
        }
    }

    /// Returns the curve that a word names, ignoring the case of ASCII letters.
    #[tactic(auto, unfolding(crate::specs::Words::curve_of))]
    pub fn read(word: &str) -> Option<Curve>
        ensures { result ≡ curve_of (chars word.now) }
    {
        CURVES
            .iter()
            .copied()
            .find(|curve| is_word(word, curve.as_str()))
    }
}

/// A transition: its kind, its duration in ticks, at most 1,000,000, its curve, and whether it goes leftward.
#[derive(Clone, Copy, Debug, PartialEq, Eq)]
pub struct Trans {
    kind: Kind,
    duration: u32,
    curve: Curve,
    leftward: bool,
}

impl Model for Trans {
    ghost use Rattle.play_types.specs.Transition.{TransView, IsTrans};

    ghost Value = { TransView };

    ghost view = { λ t. record { kind = t.kind; duration = t.duration; curve = t.curve; leftward = t.leftward } };

    ghost invariant = { λ t. IsTrans t.kind t.duration t.curve t.leftward };

    ghost inverse = { λ v. record { kind = v.kind; duration = v.duration; curve = v.curve; leftward = v.leftward } };
}

impl Trans {
    /// Creates a transition. It returns `None` exactly if the duration is above 1,000,000. A cut is kept with duration
    /// 0, linear and not leftward.
    pub fn new(kind: Kind, duration: u32, curve: Curve, leftward: bool) -> Option<Trans>
        ensures exact { IsSome result ↔ (duration ≤ MAX_DURATION) }
        ensures value { IfSome result (λ t. t ≡ trans_of kind duration curve leftward) }
    {
        if duration > MAX_DURATION {
            return None;
        }
        match kind {
            Kind::Cut => Some(Trans::cut()),
            Kind::Mix | Kind::Push | Kind::Slide | Kind::Wipe => Some(Trans {
                kind,
                duration,
                curve,
                leftward,
            }),
        }
    }

    /// Creates the transition that takes no time.
    pub fn cut() -> Trans
        ensures { result ≡ cut }
    {
        Trans {
            kind: Kind::Cut,
            duration: 0,
            curve: Curve::Linear,
            leftward: false,
        }
    }

    /// Returns the kind.
    pub fn kind(self) -> Kind
        ensures { result ≡ self.kind }
    {
        self.kind
    }

    /// Returns the duration in ticks, 0 to 1,000,000.
    pub fn duration(self) -> u32
        ensures value { result ≡ self.duration }
        ensures range { self.duration ≤ MAX_DURATION }
    {
        self.duration
    }

    /// Returns the curve.
    pub fn curve(self) -> Curve
        ensures { result ≡ self.curve }
    {
        self.curve
    }

    /// Returns whether the transition goes leftward.
    pub fn leftward(self) -> bool
        ensures { result ≡ self.leftward }
    {
        self.leftward
    }
}

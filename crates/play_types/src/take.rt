//! What a layer is asked to play.
ghost use Rattle.std.specs.Prelude.{◌≡◌, ◌↔◌, false, IsSome, IfSome};
ghost use Rattle.play_types.specs.Take.{IsTake, IsTakeValue, take_of};
ghost use Rattle.play_types.specs.Transition.{cut};

use crate::clip::MAX_FRAMES;
use crate::place::Place;
use crate::transition::Trans;
use std::marker::Model;

/// A producer of pictures and sound.
#[derive(Clone, Copy, Debug, PartialEq, Eq)]
pub enum Spec {
    /// A clip, by its position in the media table.
    Clip(u32),
    /// A colour, `0xAARRGGBB`.
    Colour(u32),
    /// What a channel showed at the previous tick.
    RouteChannel(u8),
    /// What the foreground of a place showed at the previous tick.
    RouteLayer(Place),
}

/// A producer with the part of it that is played and the transition that brings it in.
///
/// `seek` and `length` count frames of a clip. For other producers they are 0 and the take is not looped.
/// With `auto` the take starts by itself when the foreground ends.
#[derive(Clone, Copy, Debug, PartialEq, Eq)]
pub struct Take {
    spec: Spec,
    looped: bool,
    seek: u32,
    length: u32,
    trans: Trans,
    auto: bool,
}

impl Model for Take {
    ghost use Rattle.play_types.specs.Take.{TakeView, IsTakeValue};

    ghost Value = { TakeView };

    ghost view = { λ t. record { spec = t.spec; looped = t.looped; seek = t.seek; length = t.length; trans = t.trans; auto = t.auto } };

    ghost invariant = { λ t. IsTakeValue t.spec t.looped t.seek t.length };

    ghost inverse = { λ v. record { spec = v.spec; looped = v.looped; seek = v.seek; length = v.length; trans = v.trans; auto = v.auto } };
}

impl Take {
    /// Creates a take. It returns `None` exactly if the producer is a clip and its length is 0, or its seek and length
    /// together are above 1,000,000. For other producers `looped`, `seek` and `length` are dropped.
    pub fn new(
        spec: Spec,
        looped: bool,
        seek: u32,
        length: u32,
        trans: Trans,
        auto: bool,
    ) -> Option<Take>
        ensures exact { IsSome result ↔ IsTake spec seek length }
        ensures value { IfSome result (λ t. t ≡ take_of spec looped seek length trans auto) }
    {
        match spec {
            Spec::Clip(_) => {
                if length == 0 || seek > MAX_FRAMES || length > MAX_FRAMES - seek {
                    return None;
                }
                Some(Take {
                    spec,
                    looped,
                    seek,
                    length,
                    trans,
                    auto,
                })
            }
            Spec::Colour(_) | Spec::RouteChannel(_) | Spec::RouteLayer(_) => Some(Take {
                spec,
                looped: false,
                seek: 0,
                length: 0,
                trans,
                auto,
            }),
        }
    }

    /// Returns the take with a cut for its transition.
    pub fn with_cut(self) -> Take
        ensures { result ≡ record self { trans = cut } }
    {
        Take {
            trans: Trans::cut(),
            ..self
        }
    }

    /// Returns the take without its automatic start.
    pub fn without_auto(self) -> Take
        ensures { result ≡ record self { auto = false } }
    {
        Take {
            auto: false,
            ..self
        }
    }

    /// Returns the producer.
    pub fn spec(self) -> Spec
        ensures { result ≡ self.spec }
    {
        self.spec
    }

    /// Returns whether the part of the clip is played again and again.
    pub fn looped(self) -> bool
        ensures { result ≡ self.looped }
    {
        self.looped
    }

    /// Returns the frame of the clip that is played first, counted from 0.
    pub fn seek(self) -> u32
        ensures value { result ≡ self.seek }
        ensures range { IsTakeValue self.spec self.looped self.seek self.length }
    {
        self.seek
    }

    /// Returns the number of frames of the clip that are played.
    pub fn length(self) -> u32
        ensures value { result ≡ self.length }
        ensures range { IsTakeValue self.spec self.looped self.seek self.length }
    {
        self.length
    }

    /// Returns the transition that brings the take in.
    pub fn trans(self) -> Trans
        ensures { result ≡ self.trans }
    {
        self.trans
    }

    /// Returns whether the take starts by itself when the foreground ends.
    pub fn auto(self) -> bool
        ensures { result ≡ self.auto }
    {
        self.auto
    }
}

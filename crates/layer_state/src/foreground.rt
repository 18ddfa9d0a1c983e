//! What a layer shows, and the content that it replaces.
ghost use Rattle.std.specs.Prelude.{◌≡◌, ◌<◌, ◌↔◌, IsTrue, Option, Some, false};
ghost use Rattle.play_types.specs.declared.event.TheConstants.{MAX_TICKS};
ghost use Rattle.history_model.specs.stage.Life.{delay_over, first_picture, outgoing, shown_for, with_mark};
ghost use Rattle.layer_state.specs.Shown.{front_of, shown_of};

use crate::front::Front;
use crate::playhead::{old_picture_of, picture_of};
use crate::shown::Shown;
use play_types::{Kind, MAX_TICKS, Spec, Take};
use std::marker::Model;

/// What a layer shows, with the content that it replaces if a transition brought it in.
#[derive(Clone, Copy, Debug, PartialEq, Eq)]
pub(crate) struct Foreground {
    front: Front,
    old: Option<Front>,
}

impl Model for Foreground {
    ghost use Rattle.std.specs.Prelude.{option_map};
    ghost use Rattle.history_model.specs.stage.Life.{Foreground as ForegroundView};
    ghost use Rattle.layer_state.specs.inner.Contents.{AreWithinTicks, kept_of, kept_of-outgoing_of, outgoing_of};

    ghost Value = { ForegroundView };

    ghost view = { λ f. record { take = f.front.take; shown = f.front.shown; paused = f.front.paused; old = option_map outgoing_of f.old } };

    ghost invariant = { λ f. AreWithinTicks f.front f.old };

    ghost inverse = { λ v. record { front = record { take = v.take; shown = v.shown; paused = v.paused }; old = option_map kept_of v.old } };

    ghost inverse_ok = { λ f _. Prim.rw (kept_of-outgoing_of f.old) };
}

impl Foreground {
    /// Returns the first picture of a take, paused. The take is kept with a cut and without `auto`.
    pub(crate) fn first_picture(take: Take) -> Foreground
        ensures { result ≡ first_picture take }
    {
        Foreground {
            front: Front {
                take: take.with_cut().without_auto(),
                shown: 0,
                paused: true,
            },
            old: None,
        }
    }

    /// Returns the foreground of a take that starts in the place of `replaced`. It keeps the content of `replaced` unless the
    /// transition of the take is a cut.
    pub(crate) fn start(take: Take, replaced: Option<Foreground>) -> Foreground
        ensures { result ≡ record { take = take; shown = 0; paused = false; old = outgoing take.trans.kind replaced } }
    {
        let old = match take.trans().kind() {
            Kind::Cut => None,
            Kind::Mix | Kind::Push | Kind::Slide | Kind::Wipe => replaced.map(|old| old.front),
        };
        Foreground {
            front: Front {
                take,
                shown: 0,
                paused: false,
            },
            old,
        }
    }

    /// Returns the foreground without the content that it replaces.
    pub(crate) fn front(self) -> Front
        ensures { result ≡ front_of self }
    {
        self.front
    }

    /// Returns whether a take with `auto` that waits behind the foreground starts now: the foreground is a clip that runs
    /// and ends, and what is left of it is no longer than the transition of the take.
    pub(crate) fn gives_way_to(self, next: Take) -> bool
        ensures { IsTrue result ↔ (delay_over next (Some self) ≡ Some 0) }
    {
        let front = self.front;
        let ends = match front.take.spec() {
            Spec::Clip(_) => !front.take.looped(),
            Spec::Colour(_) | Spec::RouteChannel(_) | Spec::RouteLayer(_) => false,
        };
        ends && !front.paused
            && front.shown + u64::from(next.trans().duration()) >= u64::from(front.take.length())
    }

    /// Returns the foreground paused or unpaused.
    pub(crate) fn with_paused(self, paused: bool) -> Foreground
        ensures { result ≡ with_mark paused self }
    {
        Foreground {
            front: Front {
                paused,
                ..self.front
            },
            ..self
        }
    }

    /// Returns the foreground after a tick: shown for one tick more, unless it is paused.
    pub(crate) fn after_tick(self) -> Foreground
        requires { self.shown < MAX_TICKS }
        ensures { result ≡ shown_for 1 self }
    {
        if self.front.paused {
            return self;
        }
        Foreground {
            front: Front {
                shown: self.front.shown + 1,
                ..self.front
            },
            ..self
        }
    }

    /// Returns what the foreground shows at the next tick.
    pub(crate) fn shown(self) -> Shown
        ensures { result ≡ shown_of (Some self) }
    {
        let front = self.front;
        let trans = front.take.trans();
        Shown {
            now: Some(picture_of(front.take, front.shown)),
            old: self.old.map(|old| old_picture_of(old, front.shown)),
            trans,
            step: (front.shown + 1).min(u64::from(trans.duration())) as u32,
        }
    }
}

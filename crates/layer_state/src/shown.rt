//! What a layer shows at a tick.
ghost use Rattle.std.specs.Prelude.{◌≡◌, None};
ghost use Rattle.layer_state.specs.Shown.{shown_of};

use play_types::{Spec, Trans};

/// What a layer shows at a tick.
#[derive(Clone, Copy, Debug, PartialEq, Eq)]
pub struct Shown {
    /// The producer of the foreground and its frame, `None` if there is no foreground.
    pub now: Option<(Spec, u32)>,
    /// The producer and the frame of the content that the foreground replaces.
    pub old: Option<(Spec, u32)>,
    /// The transition that brings the foreground in, a cut if there is no foreground.
    pub trans: Trans,
    /// The step of the transition, in ticks: 1 at its first tick, and then one more each tick up to its duration.
    pub step: u32,
}

impl Shown {
    /// Returns what a layer without a foreground shows.
    pub(crate) fn nothing() -> Shown
        ensures { result ≡ shown_of None }
    {
        Shown {
            now: None,
            old: None,
            trans: Trans::cut(),
            step: 0,
        }
    }
}

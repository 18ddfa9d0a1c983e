//! The frame of a producer that a take shows.
ghost use Rattle.std.specs.Prelude.{◌≡◌, ◌+◌, ◌<◌, ◌^◌};
ghost use Rattle.play_types.specs.Playhead.{head};
ghost use Rattle.layer_state.specs.Shown.{old_picture_of, picture_of};
ghost use Rattle.layer_state.specs.inner.Contents.{outgoing_of};

use crate::front::Front;
use play_types::{Spec, Take};

/// Returns the producer of a take, and the frame of it that the take shows after `shown` ticks.
pub(crate) fn picture_of(take: Take, shown: u64) -> (Spec, u32)
    ensures { result ≡ picture_of take shown }
{
    (take.spec(), frame_of(take, shown))
}

/// Returns what a content that is replaced shows, once the foreground that replaces it was shown for `shown` ticks.
pub(crate) fn old_picture_of(old: Front, shown: u64) -> (Spec, u32)
    requires { old.shown + shown < 2 ^ 64 }
    ensures { result ≡ old_picture_of shown (outgoing_of old) }
{
    if old.paused {
        picture_of(old.take, old.shown)
    } else {
        picture_of(old.take, old.shown + shown)
    }
}

/// Returns the frame that a take shows after `shown` ticks: for a clip one of those that are played, otherwise 0.
fn frame_of(take: Take, shown: u64) -> u32
    ensures { result ≡ head take shown }
{
    match take.spec() {
        Spec::Clip(_) => {
            let length = u64::from(take.length());
            let passed = if take.looped() {
                shown % length
            } else {
                shown.min(length - 1)
            };
            take.seek() + passed as u32
        }
        Spec::Colour(_) | Spec::RouteChannel(_) | Spec::RouteLayer(_) => 0,
    }
}

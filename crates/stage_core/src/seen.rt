//! What a status display shows of a layer.
ghost use Rattle.std.specs.Prelude.{◌≡◌, min};
ghost use Rattle.play_types.specs.Playhead.{head};
ghost use Rattle.stage_core.specs.inner.Seen.{view_of};

use layer_state::Front;
use play_types::{Spec, Take, Trans};

/// What a status display shows of a layer that has a foreground.
#[derive(Clone, Copy, Debug, PartialEq, Eq)]
pub struct LayerView {
    /// The number of the layer.
    pub layer: u16,
    /// The producer of the foreground.
    pub spec: Spec,
    /// The frame of the clip at the playhead, counted from 0. It is 0 for another producer.
    pub frame: u32,
    /// The first frame of the clip that is played. It is 0 for another producer.
    pub seek: u32,
    /// How many frames of the clip are played. It is 0 for another producer.
    pub length: u32,
    /// Whether the clip begins again after its last frame. It is false for another producer.
    pub looped: bool,
    /// Whether the foreground is paused.
    pub paused: bool,
    /// The transition that brought the foreground in.
    pub trans: Trans,
    /// For how many ticks the transition was shown. It is over at its duration, which this does not exceed.
    pub step: u32,
}

impl LayerView {
    /// Returns what is shown of the layer numbered `layer` with the foreground `front`.
    pub(crate) fn of(layer: u16, front: Front) -> LayerView
        ensures { result ≡ view_of layer front }
    {
        let Front {
            take,
            shown,
            paused,
        } = front;
        LayerView {
            layer,
            spec: take.spec(),
            frame: frame_of(take, shown),
            seek: take.seek(),
            length: take.length(),
            looped: take.looped(),
            paused,
            trans: take.trans(),
            step: step_of(take, shown),
        }
    }
}

/// Returns for how many ticks the transition of a take was shown after `shown` ticks, at most its duration.
fn step_of(take: Take, shown: u64) -> u32
    ensures { result ≡ min shown take.trans.duration }
{
    let duration = take.trans().duration();
    shown.min(u64::from(duration)) as u32
}

/// Returns the frame that a take shows after `shown` ticks: the frame at the playhead of a clip, 0 for another producer.
fn frame_of(take: Take, shown: u64) -> u32
    ensures { result ≡ head take shown }
{
    match take.spec() {
        Spec::Clip(_) => {
            let length = u64::from(take.length());
            let passed = if take.looped() {
                shown % length
            } else {
                shown.min(length - 1)
            };
            take.seek() + passed as u32
        }
        Spec::Colour(_) | Spec::RouteChannel(_) | Spec::RouteLayer(_) => 0,
    }
}

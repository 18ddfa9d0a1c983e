//! Transitions with a curve other than the linear one, as they are drawn.
ghost use Rattle.std.specs.Prelude.{◌≡◌, ◌<◌, ◌⊎◌};
ghost use Rattle.history_model.specs.pictures.Easing.{eased, eased_step};

use mixer_tween::Tween;
use play_types::{Curve, EASED_STEPS, Trans};

/// Returns the transition and the step to draw at `step` of `trans`. A transition with a curve other than the linear one is
/// drawn as a linear one of `EASED_STEPS` ticks, at the step that the curve has reached.
pub(crate) fn eased(trans: Trans, step: u32) -> (Trans, u32)
    requires begun { (0 < step) ⊎ (trans.duration ≡ 0) }
    ensures value { result ≡ eased trans step }
    ensures begun { (0 < result.1) ⊎ (result.0.duration ≡ 0) }
{
    match trans.curve() {
        Curve::Linear => (trans, step),
        Curve::EaseInQuad | Curve::EaseOutQuad | Curve::EaseInCubic | Curve::EaseOutCubic => {
            let linear = Trans::new(trans.kind(), EASED_STEPS, Curve::Linear, trans.leftward());
            let step = eased_step(trans.curve(), step, trans.duration());
            (linear.unwrap(), step)
        }
    }
}

/// Returns the step out of `EASED_STEPS`, at least 1, that a curve has reached at `step` out of `duration`.
fn eased_step(curve: Curve, step: u32, duration: u32) -> u32
    ensures value { result ≡ eased_step curve step duration }
    ensures begun { 0 < result }
{
    let tween = Tween {
        from: 0,
        to: i64::from(EASED_STEPS),
        start: 0,
        duration,
        curve,
    };
    let along = tween.at(u64::from(step)) as u32;
    along.max(1)
}

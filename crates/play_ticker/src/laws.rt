//! Laws of the definitions in `specs/`.
ghost use Rattle.std.specs.Prelude.{◌≡◌, ◌∷◌, ◌++◌, [], ℕ, List};
ghost use mathlib.Core.List.{IsPrefix};
ghost use Rattle.play_types.specs.declared.event.Event.{Event};
ghost use Rattle.play_types.specs.declared.event.Event.TheVariants.{Tick};
ghost use Rattle.clip_format.specs.Table.{Entry};
ghost use Rattle.history_model.specs.pictures.Media.{Setup};
ghost use Rattle.play_scene.specs.Frames.{FrameView};
ghost use Rattle.stage_lock.specs.Own.{made_by};
ghost use Rattle.play_ticker.specs.Frames.{AreBlank, AreLast, HasSameTicks, frames_since, frames_text, raw_frame, tick_positions};

use band_render::laws;

/// Whatever events are given before: the empty history has no frames, and each tick adds the frame of that tick, which depends on all
/// events before it. A history that extends another, and in which the only events of pass 0 are the ticks of the other, has the other's
/// ticks and frames.
pub fn frames_of_growing_histories()
    ensures none { (setup : Setup) (given : List Event) (channel : ℕ) → frames_since setup given [] channel ≡ [] }
    ensures tick { (setup : Setup) (given history : List Event) (channel : ℕ) →
        frames_since setup given (history ++ Tick ∷ []) channel ≡ frames_since setup given history channel ++ raw_frame setup (given ++ history) channel }
    ensures same { (seen history : List Event) → IsPrefix seen history → made_by 0 history ≡ tick_positions seen → HasSameTicks seen history }
{}

/// If no events are given, the frames after them are those of the whole history, and blank frames are the last ones before it.
pub fn frames_from_the_beginning()
    ensures whole { (setup : Setup) (history : List Event) (channel : ℕ) → frames_since setup [] history channel ≡ frames_text setup history channel }
    ensures blank { (entries : List Entry) (frames : List FrameView) → AreBlank frames → AreLast [] entries frames }
{
    laws::frames_represent_histories();
}

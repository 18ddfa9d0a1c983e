//! Worked examples of the definitions in `specs/`, which the checker computes.
#![tactic(auto, unfolding(history_model::specs::stage::Acts::acts))]

ghost use Rattle.std.specs.Prelude.{◌≡◌, ◌∷◌, ◌++◌, [], true, false};
ghost use Rattle.play_types.specs.declared.command.Cmd.TheVariants.{Load, LoadBg, Resume};
ghost use Rattle.play_types.specs.declared.event.Event.TheVariants.{Tick};
ghost use Rattle.play_types.specs.declared.take.Spec.TheVariants.{Clip, Colour};
ghost use Rattle.play_types.specs.declared.transition.Kind.TheVariants.{Mix};
ghost use Rattle.history_model.specs.Worked.{ask, at, automatic, blue, by, clip, plays, red, rightward, ticking};
ghost use Rattle.stage_core.specs.Seen.{seen_layers};
ghost use Rattle.stage_core.specs.Worked.{mixing, seen};

/// A loaded clip is paused at its first frame, also after ticks, and goes on once it is resumed. A clip that is over stays at
/// its last frame.
pub fn a_loaded_clip()
    ensures loaded { seen_layers (ask (Load (at 1 0) (clip 1 3)) ∷ Tick ∷ []) 1 ≡ seen 0 (Clip 1) 0 3 true ∷ [] }
    ensures resumed { seen_layers (ask (Load (at 1 0) (clip 1 3)) ∷ Tick ∷ ask (Resume (at 1 0)) ∷ Tick ∷ []) 1 ≡ seen 0 (Clip 1) 1 3 false ∷ [] }
    ensures over { seen_layers (plays (at 1 0) (clip 1 3) ∷ ticking 5) 1 ≡ seen 0 (Clip 1) 2 3 false ∷ [] }
{}

/// Only the new content of a transition is seen, with the step at which the transition is. A background is not seen, even if it starts by
/// itself at the next tick.
pub fn foregrounds_alone()
    ensures mix { seen_layers (plays (at 1 0) (clip 1 30) ∷ Tick ∷ plays (at 1 0) (by blue (rightward Mix 4)) ∷ Tick ∷ []) 1
        ≡ mixing (rightward Mix 4) 1 (seen 0 (Colour 0xFF0000FF) 0 0 false) ∷ [] }
    ensures mixed { seen_layers (plays (at 1 0) (by blue (rightward Mix 4)) ∷ ticking 5) 1
        ≡ mixing (rightward Mix 4) 4 (seen 0 (Colour 0xFF0000FF) 0 0 false) ∷ [] }
    ensures background { seen_layers (ask (LoadBg (at 1 0) red) ∷ Tick ∷ []) 1 ≡ [] }
    ensures due { seen_layers (plays (at 1 0) (clip 1 3) ∷ ask (LoadBg (at 1 0) (automatic blue)) ∷ ticking 3) 1 ≡ seen 0 (Clip 1) 2 3 false ∷ [] }
    ensures started { seen_layers (plays (at 1 0) (clip 1 3) ∷ ask (LoadBg (at 1 0) (automatic blue)) ∷ ticking 4) 1
        ≡ seen 0 (Colour 0xFF0000FF) 0 0 false ∷ [] }
{}

/// Layers of a channel are seen in rising number, whatever order they came in. Layers of other channels are not seen.
pub fn layers_in_rising_number()
    ensures rising { seen_layers (plays (at 1 7) red ∷ plays (at 2 5) blue ∷ ask (LoadBg (at 1 4) blue) ∷ plays (at 1 2) blue ∷ []) 1
        ≡ seen 2 (Colour 0xFF0000FF) 0 0 false ∷ seen 7 (Colour 0xFFFF0000) 0 0 false ∷ [] }
    ensures other { seen_layers (plays (at 1 7) red ∷ []) 2 ≡ [] }
{}

//! Worked examples of the definitions in `specs/`, which the checker computes.
ghost use Rattle.std.specs.Prelude.{◌≡◌, ◌∷◌, [], true, false};
ghost use Rattle.play_types.specs.declared.command.Cmd.TheVariants.{LoadBg, Pause, Play};
ghost use Rattle.play_types.specs.declared.transition.Kind.TheVariants.{Mix};
ghost use Rattle.history_model.specs.Worked.{at, automatic, blue, by, clip, old_of, over_old, paused, red, rightward, running, with_background};
ghost use Rattle.history_model.specs.stage.Act.{act_after};
ghost use Rattle.history_model.specs.stage.Life.{empty_place};
ghost use Rattle.layer_state.specs.Past.{IsPast, Represents};
ghost use Rattle.layer_state.specs.Worked.{mixes_blue, nothing, pictures, shows_blue, shows_clip, shows_red};

/// What a layer shows at one tick: a clip at its playhead, and in a transition the clip that is replaced at its own.
pub fn one_tick()
    ensures nothing { pictures 1 (with_background empty_place red) ≡ nothing ∷ [] }
    ensures colour { pictures 1 (running red 7) ≡ shows_red ∷ [] }
    ensures clip { pictures 1 (running (clip 1 30) 7) ≡ shows_clip 7 ∷ [] }
    ensures last_frame { pictures 1 (running (clip 1 3) 7) ≡ shows_clip 2 ∷ [] }
    ensures mix { pictures 1 (over_old (by blue (rightward Mix 4)) 2 (old_of (clip 1 30) 7 false)) ≡ mixes_blue 9 3 4 ∷ [] }
    ensures past_the_mix { pictures 1 (over_old (by blue (rightward Mix 4)) 8 (old_of (clip 1 30) 7 false)) ≡ mixes_blue 15 4 4 ∷ [] }
    ensures old_paused { pictures 1 (over_old (by blue (rightward Mix 4)) 2 (old_of (clip 1 30) 7 true)) ≡ mixes_blue 7 3 4 ∷ [] }
{}

/// What a layer shows tick by tick: a paused clip stays at its frame, and a background with AUTO starts after the last frame of the
/// clip, or earlier by the duration of its transition.
pub fn tick_by_tick()
    ensures runs { pictures 3 (running (clip 1 3) 0) ≡ shows_clip 0 ∷ shows_clip 1 ∷ shows_clip 2 ∷ [] }
    ensures paused { pictures 2 (paused (clip 1 3) 1) ≡ shows_clip 1 ∷ shows_clip 1 ∷ [] }
    ensures cut { pictures 4 (with_background (running (clip 1 3) 0) (automatic blue))
        ≡ shows_clip 0 ∷ shows_clip 1 ∷ shows_clip 2 ∷ shows_blue ∷ [] }
    ensures mix { pictures 4 (with_background (running (clip 1 3) 0) (automatic (by blue (rightward Mix 2))))
        ≡ shows_clip 0 ∷ mixes_blue 1 1 2 ∷ mixes_blue 2 2 2 ∷ mixes_blue 2 2 2 ∷ [] }
{}

/// Pasts: the acts of a past come in their order, and none of them after the ticks that have passed.
pub fn pasts()
    ensures loaded { Represents (with_background empty_place red) (act_after 2 (LoadBg (at 1 1) red) ∷ []) 5 }
    ensures played { Represents (running red 3) (act_after 2 (Play (at 1 1)) ∷ act_after 2 (LoadBg (at 1 1) red) ∷ []) 5 }
    ensures too_late { IsPast (act_after 6 (Pause (at 1 1)) ∷ []) 5 → ⊥ }
    ensures out_of_order { IsPast (act_after 2 (Play (at 1 1)) ∷ act_after 3 (Pause (at 1 1)) ∷ []) 5 → ⊥ }
{}

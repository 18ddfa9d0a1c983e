//! Mixer values: tweens, deferred settings, resets, and values of places without content.
#![tactic(auto, unfolding(crate::specs::stage::Acts::acts, crate::specs::stage::Value::value, crate::specs::pictures::Frame::frame_pixel))]

ghost use Rattle.std.specs.Prelude.{◌≡◌, ◌∷◌, ◌++◌, [], pos, neg_ℤ, true, false, codes};
ghost use Rattle.play_types.specs.declared.command.Cmd.TheVariants.{CommitMixer, PlayTake, ResetChannel, ResetLayer, Set, SwapLayers};
ghost use Rattle.play_types.specs.declared.event.Event.TheVariants.{Tick};
ghost use Rattle.play_types.specs.declared.setting.Prop.TheVariants.{Fill, Opacity, Volume};
ghost use Rattle.play_types.specs.declared.transition.Curve.TheVariants.{EaseInCubic, EaseInQuad, EaseOutCubic, EaseOutQuad};
ghost use Rattle.history_model.specs.stage.Act.{act_after};
ghost use Rattle.history_model.specs.stage.Acts.{acts};
ghost use Rattle.history_model.specs.stage.Resolved.{resolved_acts, waiting_settings};
ghost use Rattle.history_model.specs.stage.Value.{value};
ghost use Rattle.history_model.specs.Worked.{ask, at, batch, blue, deferred, defers, number, numbers, one, plays, red, row_text, set_along, sets, setting, ticking};

/// A place without content has the default values, and those that were set.
pub fn place_without_a_content()
    ensures default { value [] (at 1 7) Fill 0 ≡ numbers (pos 0) (pos 0) (pos 1000000) (pos 1000000) }
    ensures set { value (sets (at 1 7) Volume (number (pos 250000)) ∷ []) (at 1 7) Volume 0 ≡ number (pos 250000) }
    ensures other { value (sets (at 1 7) Volume (number (pos 250000)) ∷ []) (at 1 7) Opacity 0 ≡ number (pos 1000000) }
    ensures place { value (sets (at 1 7) Volume (number (pos 250000)) ∷ []) (at 1 8) Volume 0 ≡ number (pos 1000000) }
{}

/// An opacity that goes to 0 in four ticks, at 0, 1, 2 and 4 of them, and what is shown then.
pub fn opacity_tween()
    ensures values { let history = plays (at 1 0) red ∷ ask (Set (setting (at 1 0) Opacity (number (pos 0)) 4)) ∷ [] in
        (value history (at 1 0) Opacity 0 ≡ number (pos 1000000))
        × (value history (at 1 0) Opacity 1 ≡ number (pos 750000))
        × (value history (at 1 0) Opacity 2 ≡ number (pos 500000))
        × (value history (at 1 0) Opacity 4 ≡ number (pos 0)) }
    ensures pictures { let history = plays (at 1 0) red ∷ ask (Set (setting (at 1 0) Opacity (number (pos 0)) 4)) ∷ [] in
        (row_text (one 1) 1 history ≡ codes "0000bfbf")
        × (row_text (one 1) 1 (history ++ ticking 1) ≡ codes "00008080")
        × (row_text (one 1) 1 (history ++ ticking 2) ≡ codes "00004040")
        × (row_text (one 1) 1 (history ++ ticking 3) ≡ codes "00000000") }
{}

/// An opacity that goes to 0 in four ticks along each curve: what it is after one tick, and what is shown then.
pub fn curved_tweens()
    ensures in_quad { value (ask (Set (set_along EaseInQuad (setting (at 1 0) Opacity (number (pos 0)) 4))) ∷ []) (at 1 0) Opacity 1
        ≡ number (pos 937500) }
    ensures out_quad { value (ask (Set (set_along EaseOutQuad (setting (at 1 0) Opacity (number (pos 0)) 4))) ∷ []) (at 1 0) Opacity 1
        ≡ number (pos 562500) }
    ensures in_cubic { value (ask (Set (set_along EaseInCubic (setting (at 1 0) Opacity (number (pos 0)) 4))) ∷ []) (at 1 0) Opacity 1
        ≡ number (pos 984375) }
    ensures out_cubic { value (ask (Set (set_along EaseOutCubic (setting (at 1 0) Opacity (number (pos 0)) 4))) ∷ []) (at 1 0) Opacity 1
        ≡ number (pos 421875) }
    ensures picture { row_text (one 1) 1
        (plays (at 1 0) red ∷ ask (Set (set_along EaseInQuad (setting (at 1 0) Opacity (number (pos 0)) 4))) ∷ [])
        ≡ codes "0000efef" }
{}

/// A tween that is interrupted by one of another curve goes on from the value that was reached, along the new curve. A commit
/// and a swap of layers with transforms keep the curve.
pub fn curves_are_kept()
    ensures interrupted { let history =
        ask (Set (set_along EaseInQuad (setting (at 1 0) Opacity (number (pos 0)) 4)))
        ∷ Tick ∷ ask (Set (set_along EaseOutQuad (setting (at 1 0) Opacity (number (pos 0)) 2))) ∷ [] in
        value history (at 1 0) Opacity 2 ≡ number (pos 234375) }
    ensures committed { let history =
        ask (Set (record (set_along EaseInCubic (setting (at 1 0) Opacity (number (pos 0)) 4)) { deferred = true }))
        ∷ Tick ∷ ask (CommitMixer 1) ∷ [] in
        value history (at 1 0) Opacity 2 ≡ number (pos 984375) }
    ensures swapped { let history =
        ask (Set (set_along EaseOutCubic (setting (at 1 0) Opacity (number (pos 0)) 4)))
        ∷ ask (SwapLayers (at 1 0) (at 1 1) true) ∷ [] in
        value history (at 1 1) Opacity 1 ≡ number (pos 421875) }
{}

/// A tween that is interrupted goes on from the value that was reached. Its quotient is taken toward zero.
pub fn interrupted_tween()
    ensures { let history =
        ask (Set (setting (at 1 0) Fill (numbers (neg_ℤ (pos 100)) (pos 0) (pos 1000000) (pos 1000000)) 3))
        ∷ Tick ∷ ask (Set (setting (at 1 0) Fill (numbers (pos 0) (pos 0) (pos 1000000) (pos 1000000)) 2)) ∷ [] in
        (value history (at 1 0) Fill 1 ≡ numbers (neg_ℤ (pos 33)) (pos 0) (pos 1000000) (pos 1000000))
        × (value history (at 1 0) Fill 2 ≡ numbers (neg_ℤ (pos 17)) (pos 0) (pos 1000000) (pos 1000000))
        × (value history (at 1 0) Fill 3 ≡ numbers (pos 0) (pos 0) (pos 1000000) (pos 1000000)) }
{}

/// Deferred settings wait, and a commit of their channel starts them together, at its own moment and in their order.
pub fn deferred_group()
    ensures before { let history = acts (defers (at 1 1) Opacity (number (pos 0)) ∷ defers (at 1 2) Opacity (number (pos 500000)) ∷ []) in
        (resolved_acts history ≡ [])
        × (waiting_settings history 1 ≡ deferred (at 1 2) Opacity (number (pos 500000)) ∷ deferred (at 1 1) Opacity (number (pos 0)) ∷ []) }
    ensures after { let history =
        acts (defers (at 1 1) Opacity (number (pos 0)) ∷ defers (at 1 2) Opacity (number (pos 500000)) ∷ Tick
        ∷ ask (CommitMixer 2) ∷ Tick ∷ ask (CommitMixer 1) ∷ []) in
        (resolved_acts history
        ≡ act_after 2 (Set (setting (at 1 2) Opacity (number (pos 500000)) 0))
        ∷ act_after 2 (Set (setting (at 1 1) Opacity (number (pos 0)) 0)) ∷ [])
        × (waiting_settings history 1 ≡ []) }
{}

/// A deferred setting takes effect at the first commit of its own channel that follows it, with the ticks of that commit, and
/// behind the settings that came between. One that no commit of its channel follows waits.
pub fn groups_of_two_channels()
    ensures { let history =
        acts (defers (at 1 1) Opacity (number (pos 0)) ∷ defers (at 2 1) Opacity (number (pos 500000)) ∷ Tick
        ∷ sets (at 1 1) Volume (number (pos 250000)) ∷ ask (CommitMixer 2) ∷ defers (at 1 2) Opacity (number (pos 500000)) ∷ Tick
        ∷ ask (CommitMixer 1) ∷ defers (at 1 3) Opacity (number (pos 0)) ∷ Tick ∷ ask (CommitMixer 2) ∷ []) in
        (resolved_acts history
        ≡ act_after 2 (Set (setting (at 1 2) Opacity (number (pos 500000)) 0))
        ∷ act_after 2 (Set (setting (at 1 1) Opacity (number (pos 0)) 0))
        ∷ act_after 1 (Set (setting (at 2 1) Opacity (number (pos 500000)) 0))
        ∷ act_after 1 (Set (setting (at 1 1) Volume (number (pos 250000)) 0)) ∷ [])
        × (waiting_settings history 1 ≡ deferred (at 1 3) Opacity (number (pos 0)) ∷ [])
        × (waiting_settings history 2 ≡ []) }
{}

/// The pictures of a deferred group before and after its commit.
pub fn deferred_group_shown()
    ensures { let history =
        plays (at 1 1) blue ∷ plays (at 1 2) red ∷ defers (at 1 1) Opacity (number (pos 0))
        ∷ defers (at 1 2) Opacity (number (pos 500000)) ∷ [] in
        (row_text (one 1) 1 history ≡ codes "0000ffff")
        × (row_text (one 1) 1 (history ++ Tick ∷ ask (CommitMixer 1) ∷ []) ≡ codes "00008080") }
{}

/// A deferred setting names its place as it is at the commit: a swap with transforms does not move it. It moves a setting that
/// took effect before.
pub fn deferred_setting_and_a_swap()
    ensures deferred { let history =
        plays (at 1 1) red ∷ defers (at 1 1) Opacity (number (pos 500000))
        ∷ ask (SwapLayers (at 1 1) (at 1 2) true) ∷ ask (CommitMixer 1) ∷ [] in
        (value history (at 1 1) Opacity 0 ≡ number (pos 500000))
        × (value history (at 1 2) Opacity 0 ≡ number (pos 1000000))
        × (row_text (one 1) 1 history ≡ codes "0000ffff") }
    ensures moved { let history =
        plays (at 1 1) red ∷ sets (at 1 1) Opacity (number (pos 500000)) ∷ ask (SwapLayers (at 1 1) (at 1 2) true) ∷ [] in
        (value history (at 1 1) Opacity 0 ≡ number (pos 1000000))
        × (value history (at 1 2) Opacity 0 ≡ number (pos 500000))
        × (row_text (one 1) 1 history ≡ codes "00008080") }
    ensures kept { let history =
        plays (at 1 1) red ∷ sets (at 1 1) Opacity (number (pos 500000)) ∷ ask (SwapLayers (at 1 1) (at 1 2) false) ∷ [] in
        (value history (at 1 1) Opacity 0 ≡ number (pos 500000)) × (row_text (one 1) 1 history ≡ codes "0000ffff") }
{}

/// A reset sets the defaults at once, and does not change waiting settings.
pub fn resets()
    ensures layer { let history = sets (at 1 1) Opacity (number (pos 0)) ∷ ask (ResetLayer (at 1 1)) ∷ [] in
        value history (at 1 1) Opacity 0 ≡ number (pos 1000000) }
    ensures channel { let history = sets (at 1 1) Opacity (number (pos 0)) ∷ ask (ResetChannel 2) ∷ [] in
        (value history (at 1 1) Opacity 0 ≡ number (pos 0))
        × (value (history ++ ask (ResetChannel 1) ∷ []) (at 1 1) Opacity 0 ≡ number (pos 1000000)) }
    ensures waiting { let history = defers (at 1 1) Opacity (number (pos 0)) ∷ ask (ResetChannel 1) ∷ ask (CommitMixer 1) ∷ [] in
        value history (at 1 1) Opacity 0 ≡ number (pos 0) }
{}

/// A batch is shown whole, from the tick after it on.
pub fn batch_as_one_event()
    ensures before { row_text (one 1) 1 [] ≡ codes "00000000" }
    ensures after { row_text (one 1) 1
        (Tick ∷ batch (PlayTake (at 1 0) blue ∷ PlayTake (at 1 1) red ∷ Set (setting (at 1 1) Opacity (number (pos 500000)) 0) ∷ []) ∷ [])
        ≡ codes "7f0080ff" }
{}

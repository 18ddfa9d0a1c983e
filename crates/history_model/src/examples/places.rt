//! Where the content of a place and its mixer values came from, and which places are live and drawn.
#![tactic(auto, unfolding(crate::specs::stage::Acts::acts))]

ghost use Rattle.std.specs.Prelude.{◌≡◌, ◌∷◌, [], pos, true, false};
ghost use Rattle.play_types.specs.declared.command.Cmd.TheVariants.{ClearChannel, ClearLayer, LoadBg, Pause, Play, ResetChannel, Set, StopLayer, SwapChannels, SwapLayers};
ghost use Rattle.play_types.specs.declared.event.Event.TheVariants.{Tick};
ghost use Rattle.play_types.specs.declared.setting.Prop.TheVariants.{Opacity};
ghost use Rattle.history_model.specs.stage.Act.{act_after};
ghost use Rattle.history_model.specs.stage.Acts.{acts};
ghost use Rattle.history_model.specs.stage.Live.{drawn_layers, layers, live_layers};
ghost use Rattle.history_model.specs.stage.Trail.{trail, tuning};
ghost use Rattle.history_model.specs.Worked.{ask, at, automatic, blue, number, plays, red, setting};

/// The trail of content goes with it through swaps. The place that it left has the trail of the content that came in exchange.
pub fn trail_through_a_swap()
    ensures { let past =
        acts (ask (LoadBg (at 1 1) red) ∷ Tick ∷ ask (SwapLayers (at 1 1) (at 2 5) false)
        ∷ ask (Play (at 2 5)) ∷ ask (Pause (at 1 1)) ∷ []) in
        (trail past (at 2 5) ≡ act_after 1 (Play (at 2 5)) ∷ act_after 0 (LoadBg (at 1 1) red) ∷ [])
        × (trail past (at 1 1) ≡ act_after 1 (Pause (at 1 1)) ∷ []) }
{}

/// A swap of channels moves each layer, a swap of a place with itself none.
pub fn trail_through_a_swap_of_channels()
    ensures channels { let past = acts (ask (LoadBg (at 1 3) red) ∷ ask (LoadBg (at 2 3) blue) ∷ ask (SwapChannels 2 1 false) ∷ []) in
        (trail past (at 1 3) ≡ act_after 0 (LoadBg (at 2 3) blue) ∷ []) × (trail past (at 2 3) ≡ act_after 0 (LoadBg (at 1 3) red) ∷ []) }
    ensures itself { trail (acts (ask (LoadBg (at 1 3) red) ∷ ask (SwapLayers (at 1 3) (at 1 3) false) ∷ [])) (at 1 3)
        ≡ act_after 0 (LoadBg (at 1 3) red) ∷ [] }
{}

/// An act on a channel is in the trail of each of its places, and an act on a place in the trail of that place alone.
pub fn trail_of_an_act_on_a_channel()
    ensures { let past = acts (ask (LoadBg (at 1 1) red) ∷ ask (ClearChannel 1) ∷ ask (StopLayer (at 1 2)) ∷ []) in
        (trail past (at 1 1) ≡ act_after 0 (ClearChannel 1) ∷ act_after 0 (LoadBg (at 1 1) red) ∷ [])
        × (trail past (at 1 2) ≡ act_after 0 (StopLayer (at 1 2)) ∷ act_after 0 (ClearChannel 1) ∷ [])
        × (trail past (at 2 1) ≡ []) }
{}

/// Mixer values follow a swap only with transforms.
pub fn tuning_through_a_swap()
    ensures layers { let set = act_after 0 (Set (setting (at 1 1) Opacity (number (pos 0)) 0)) in
        (tuning (act_after 0 (SwapLayers (at 1 1) (at 1 2) true) ∷ set ∷ []) (at 1 2) ≡ set ∷ [])
        × (tuning (act_after 0 (SwapLayers (at 1 1) (at 1 2) true) ∷ set ∷ []) (at 1 1) ≡ [])
        × (tuning (act_after 0 (SwapLayers (at 1 1) (at 1 2) false) ∷ set ∷ []) (at 1 1) ≡ set ∷ []) }
    ensures channel { let set = act_after 0 (Set (setting (at 1 1) Opacity (number (pos 0)) 0)) in
        (tuning (act_after 3 (ResetChannel 2) ∷ act_after 1 (SwapChannels 1 2 true) ∷ set ∷ []) (at 2 1) ≡ act_after 3 (ResetChannel 2) ∷ set ∷ [])
        × (tuning (act_after 3 (ResetChannel 2) ∷ act_after 1 (SwapChannels 1 2 false) ∷ set ∷ []) (at 2 1) ≡ act_after 3 (ResetChannel 2) ∷ []) }
{}

/// A place with a background alone is live and not drawn. It is drawn if the background starts at the next tick.
pub fn live_and_drawn()
    ensures background { let past = acts (ask (LoadBg (at 1 4) red) ∷ plays (at 1 2) blue ∷ []) in
        (live_layers past 0 1 ≡ 2 ∷ 4 ∷ []) × (drawn_layers past 0 1 ≡ 2 ∷ []) }
    ensures automatic { let past = acts (ask (LoadBg (at 1 4) (automatic red)) ∷ plays (at 1 2) blue ∷ []) in
        (live_layers past 0 1 ≡ 2 ∷ 4 ∷ []) × (drawn_layers past 0 1 ≡ 2 ∷ 4 ∷ []) }
    ensures gone { let past = acts (plays (at 1 4) red ∷ plays (at 1 2) blue ∷ ask (StopLayer (at 1 4)) ∷ ask (ClearLayer (at 1 2)) ∷ []) in
        (live_layers past 0 1 ≡ []) × (drawn_layers past 0 1 ≡ []) }
    ensures stopped { let past = acts (plays (at 1 4) red ∷ ask (LoadBg (at 1 4) blue) ∷ ask (StopLayer (at 1 4)) ∷ []) in
        (live_layers past 0 1 ≡ 4 ∷ []) × (drawn_layers past 0 1 ≡ []) }
{}

/// A swap of channels makes the places of the other channel live, each on its layer.
pub fn live_after_a_swap_of_channels()
    ensures { let past = acts (plays (at 1 4) red ∷ plays (at 1 2) blue ∷ ask (SwapChannels 1 3 false) ∷ []) in
        (layers past ≡ 2 ∷ 4 ∷ []) × (live_layers past 0 1 ≡ []) × (live_layers past 0 3 ≡ 2 ∷ 4 ∷ []) }
{}

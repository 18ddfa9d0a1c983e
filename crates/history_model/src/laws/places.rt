//! The live places of a channel as a list.
ghost use Rattle.std.specs.Prelude.{◌≡◌, ℕ, ◌+◌, ◌==◌, List, [], ◌∷◌, All, map, if◌then◌else◌};
ghost use Rattle.play_types.specs.Place.{PlaceView};
ghost use Rattle.play_types.specs.History.{ticks};
ghost use Rattle.play_types.specs.declared.command.Cmd.{Cmd};
ghost use Rattle.play_types.specs.declared.event.Event.{Event};
ghost use Rattle.history_model.specs.stage.Act.{Act, act_after};
ghost use Rattle.history_model.specs.stage.Acts.{acts};
ghost use Rattle.history_model.specs.stage.Life.{Life, after, effect};
ghost use Rattle.history_model.specs.stage.Live.{state};
ghost use Rattle.history_model.specs.stage.Places.{AreBy, ArePlaces, Places, live_places, one_tick_later, places, standing, with_place};
ghost use Rattle.history_model.specs.stage.Trail.{acts_on_content, content_origin};

/// Lists of live places in rising layer that have the same life at each layer are equal, and a place that is put into such
/// a list changes its own layer alone.
pub fn places_by_layer()
    ensures same { (xs ys : Places) → ArePlaces xs → ArePlaces ys → ((layer : ℕ) → standing xs layer ≡ standing ys layer) → xs ≡ ys }
    ensures put { (places : Places) (layer other : ℕ) (life : Life) → ArePlaces places →
        standing (with_place places layer life) other ≡ (if layer == other then life else standing places other) }
    ensures list { (places : Places) (layer : ℕ) (life : Life) → ArePlaces places → ArePlaces (with_place places layer life) }
{}

/// The live places of a channel are in rising layer, each is live, and they give what each layer holds. A layer that they lack
/// holds nothing.
pub fn live_places_are_the_states()
    ensures list { (acts : List Act) (t channel : ℕ) → ArePlaces (live_places acts t channel) }
    ensures lives { (acts : List Act) (t channel layer : ℕ) →
        standing (live_places acts t channel) layer ≡ state acts t (record { channel = channel; layer = layer }) }
{}

/// After one more act that is no swap of the place, a place on whose content it acts has the effect of the act, and another
/// place is unchanged. One tick later a place is its former state after one tick, if no act is later.
pub fn states_one_by_one()
    ensures act { (acts : List Act) (t : ℕ) (cmd : Cmd) (place : PlaceView) → content_origin cmd place ≡ place →
        state (act_after t cmd ∷ acts) t place
        ≡ (if acts_on_content cmd place then effect cmd (state acts t place) else state acts t place) }
    ensures tick { (acts : List Act) (t : ℕ) (place : PlaceView) → AreBy t acts →
        state acts (t + 1) place ≡ after (state acts t place) 1 }
{}

/// There are no live places before the first act, and one tick later each of them is its former state after one tick.
pub fn live_places_one_by_one()
    ensures start { (t channel : ℕ) → live_places [] t channel ≡ [] }
    ensures tick { (acts : List Act) (t channel : ℕ) → AreBy t acts →
        live_places acts (t + 1) channel ≡ map one_tick_later (live_places acts t channel) }
{}

/// The live places of a channel after a history are given with what they hold. There are none before the first event.
pub fn places_of_a_history()
    ensures start { (channel : ℕ) → places [] channel ≡ [] }
    ensures states { (history : List Event) (channel : ℕ) →
        All (λ place. place.1 ≡ state (acts history) (ticks history) (record { channel = channel; layer = place.0 })) (places history channel) }
{}

//! Events that change nothing later, and frames before the first act.
ghost use Rattle.std.specs.Prelude.{◌≡◌, ℕ, ◌∷◌, ◌++◌, [], List, pos, true, false};
ghost use Rattle.play_types.specs.Place.{PlaceView};
ghost use Rattle.play_types.specs.History.{is_stop};
ghost use Rattle.play_types.specs.declared.command.Cmd.TheVariants.{Info, Value};
ghost use Rattle.play_types.specs.declared.event.Event.{Event};
ghost use Rattle.play_types.specs.declared.event.Event.TheVariants.{Do, Tick};
ghost use Rattle.play_types.specs.declared.event.Tag.{Tag};
ghost use Rattle.play_types.specs.declared.setting.Prop.{Prop};
ghost use Rattle.pixel_math.specs.Pixel.{transparent};
ghost use Rattle.history_model.specs.stage.Acts.{acts, is_refused};
ghost use Rattle.history_model.specs.stage.Answer.{answer, statuses};
ghost use Rattle.history_model.specs.pictures.Frame.{frame_pixel};
ghost use Rattle.history_model.specs.stage.Live.{live_layers};
ghost use Rattle.history_model.specs.pictures.Media.{Setup};
ghost use Rattle.history_model.specs.pictures.Sound.{frame_sample};
ghost use Rattle.history_model.specs.stage.Trail.{trail};
ghost use Rattle.history_model.specs.stage.Value.{value};

/// A tick gives no acts: it changes neither which places are live nor the trail of any place.
pub fn ticks_keep_places()
    ensures acts { (history : List Event) → acts (history ++ Tick ∷ []) ≡ acts history }
    ensures trails { (history : List Event) (place : PlaceView) → trail (acts (history ++ Tick ∷ [])) place ≡ trail (acts history) place }
    ensures live { (history : List Event) (t u channel : ℕ) →
        live_layers (acts (history ++ Tick ∷ [])) t channel ≡ live_layers (acts history) u channel }
{}

/// A query of a value changes no later answer: no frame, value, status or refusal. Only the position of a stop counts it.
pub fn value_queries_change_nothing()
    ensures answers { (setup : Setup) (before : List Event) (tag : Tag) (place : PlaceView) (prop : Prop) (later : List Event) (event : Event) →
        is_stop event ≡ false →
        answer setup (before ++ Do tag (Value place prop) ∷ later) event ≡ answer setup (before ++ later) event }
    ensures pixels { (setup : Setup) (before : List Event) (tag : Tag) (place : PlaceView) (prop : Prop) (later : List Event) (channel x y : ℕ) →
        frame_pixel setup (before ++ Do tag (Value place prop) ∷ later) channel x y ≡ frame_pixel setup (before ++ later) channel x y }
{}

/// A query of the statuses changes no later answer and no frame. Only the position of a stop counts it.
pub fn status_queries_change_nothing()
    ensures answers { (setup : Setup) (before : List Event) (tag : Tag) (later : List Event) (event : Event) → is_stop event ≡ false →
        answer setup (before ++ Do tag Info ∷ later) event ≡ answer setup (before ++ later) event }
    ensures pixels { (setup : Setup) (before : List Event) (tag : Tag) (later : List Event) (channel x y : ℕ) →
        frame_pixel setup (before ++ Do tag Info ∷ later) channel x y ≡ frame_pixel setup (before ++ later) channel x y }
{}

/// A refused event changes no later answer, and so no frame, sound, value or status.
pub fn refused_events_change_nothing()
    ensures answers { (setup : Setup) (before : List Event) (event : Event) (later : List Event) (next : Event) →
        is_refused before event ≡ true → is_stop next ≡ false →
        answer setup (before ++ event ∷ later) next ≡ answer setup (before ++ later) next }
    ensures pixels { (setup : Setup) (before : List Event) (event : Event) (later : List Event) (channel x y : ℕ) →
        is_refused before event ≡ true →
        frame_pixel setup (before ++ event ∷ later) channel x y ≡ frame_pixel setup (before ++ later) channel x y }
    ensures samples { (setup : Setup) (before : List Event) (event : Event) (later : List Event) (channel pair side : ℕ) →
        is_refused before event ≡ true →
        frame_sample setup (before ++ event ∷ later) channel pair side ≡ frame_sample setup (before ++ later) channel pair side }
    ensures values { (setup : Setup) (before : List Event) (event : Event) (later : List Event) (place : PlaceView) (prop : Prop) (now : ℕ) →
        is_refused before event ≡ true →
        value (before ++ event ∷ later) place prop now ≡ value (before ++ later) place prop now }
    ensures statuses { (setup : Setup) (before : List Event) (event : Event) (later : List Event) → is_refused before event ≡ true →
        statuses setup (before ++ event ∷ later) ≡ statuses setup (before ++ later) }
{}

/// Before the first act every frame is transparent and silent.
pub fn before_the_first_act()
    ensures pixels { (setup : Setup) (history : List Event) → acts history ≡ [] → (channel x y : ℕ) →
        frame_pixel setup history channel x y ≡ transparent }
    ensures samples { (setup : Setup) (history : List Event) → acts history ≡ [] → (channel pair side : ℕ) →
        frame_sample setup history channel pair side ≡ pos 0 }
{}

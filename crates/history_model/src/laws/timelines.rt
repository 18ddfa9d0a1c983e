//! Timelines of histories.
ghost use Rattle.std.specs.Prelude.{◌≡◌, ℕ, ◌∷◌, ◌++◌, [], List, if◌then◌else◌};
ghost use Rattle.play_types.specs.Place.{PlaceView};
ghost use Rattle.play_types.specs.History.{ticks};
ghost use Rattle.play_types.specs.declared.event.Event.{Event};
ghost use Rattle.play_types.specs.declared.setting.Prop.{Prop};
ghost use Rattle.history_model.specs.stage.Acts.{acts, is_refused};
ghost use Rattle.history_model.specs.stage.Answer.{statuses};
ghost use Rattle.history_model.specs.stage.Timeline.{Entry, entries_of, timeline, timeline_acts, timeline_ticks, timeline_value};
ghost use Rattle.history_model.specs.stage.Value.{value};
ghost use Rattle.history_model.specs.pictures.Frame.{frame_pixel};
ghost use Rattle.history_model.specs.pictures.Media.{Setup};
ghost use Rattle.history_model.specs.pictures.Sound.{frame_sample};
ghost use Rattle.history_model.specs.pictures.TimelineFrame.{timeline_pixel, timeline_sample, timeline_statuses};

/// A history and its timeline have equal acts, ticks, frames, samples, values and statuses.
pub fn histories_are_timelines()
    ensures acts { (history : List Event) → acts history ≡ timeline_acts (timeline history) }
    ensures ticks { (history : List Event) → ticks history ≡ timeline_ticks (timeline history) }
    ensures pixels { (setup : Setup) (history : List Event) (channel x y : ℕ) →
        frame_pixel setup history channel x y ≡ timeline_pixel setup (timeline history) channel x y }
    ensures samples { (setup : Setup) (history : List Event) (channel pair side : ℕ) →
        frame_sample setup history channel pair side ≡ timeline_sample setup (timeline history) channel pair side }
    ensures values { (history : List Event) (place : PlaceView) (prop : Prop) (now : ℕ) →
        value history place prop now ≡ timeline_value (timeline history) place prop now }
    ensures statuses { (setup : Setup) (history : List Event) →
        statuses setup history ≡ timeline_statuses setup (timeline history) }
{}

/// One event more adds its entries, and none if it is refused. Later events add entries after those of the history.
pub fn timeline_of_more_events()
    ensures one { (history : List Event) (event : Event) →
        timeline (history ++ event ∷ []) ≡ (if is_refused history event then timeline history else entries_of event ++ timeline history) }
    ensures later { (before later : List Event) → (more : List Entry) × (timeline (before ++ later) ≡ more ++ timeline before) }
{}

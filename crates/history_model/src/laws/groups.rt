//! Groups of deferred settings: what an operator relies on.
//!
//! The first two laws are about timelines, and the others about histories.
ghost use Rattle.std.specs.Prelude.{◌≡◌, ℕ, ◌==◌, ◌∷◌, ◌++◌, [], List, map, Bool, true, false};
ghost use Rattle.play_types.specs.Place.{PlaceView};
ghost use Rattle.play_types.specs.declared.command.Cmd.TheVariants.{CommitMixer};
ghost use Rattle.play_types.specs.declared.event.Event.{Event};
ghost use Rattle.play_types.specs.declared.event.Event.TheVariants.{Do};
ghost use Rattle.play_types.specs.declared.event.Tag.{Tag};
ghost use Rattle.play_types.specs.declared.setting.Prop.{Prop};
ghost use Rattle.history_model.specs.stage.Acts.{is_refused};
ghost use Rattle.history_model.specs.stage.Answer.{statuses};
ghost use Rattle.history_model.specs.stage.Group.{with_group, without_waiting};
ghost use Rattle.history_model.specs.stage.Resolved.{settled_act, waiting_settings};
ghost use Rattle.history_model.specs.stage.Timeline.{Did, Entry, timeline, timeline_acts, timeline_ticks, timeline_value};
ghost use Rattle.history_model.specs.stage.Value.{value};
ghost use Rattle.history_model.specs.pictures.Frame.{frame_pixel};
ghost use Rattle.history_model.specs.pictures.Media.{Setup};
ghost use Rattle.history_model.specs.pictures.Sound.{frame_sample};
ghost use Rattle.history_model.specs.pictures.TimelineFrame.{IsLikeTimeline, timeline_pixel, timeline_sample, timeline_statuses};

/// Without its waiting settings, of all channels or of some, a timeline shows, sounds, answers and reports what it does with
/// them. An earlier part of the shorter timeline is that part of the timeline, without waiting settings of some channels. On a
/// channel whose waiting settings are left out no setting waits.
pub fn waiting_settings_change_nothing()
    ensures pixels { (setup : Setup) (which : ℕ → Bool) (entries : List Entry) (channel x y : ℕ) →
        timeline_pixel setup (without_waiting which entries) channel x y ≡ timeline_pixel setup entries channel x y }
    ensures samples { (setup : Setup) (which : ℕ → Bool) (entries : List Entry) (channel pair side : ℕ) →
        timeline_sample setup (without_waiting which entries) channel pair side ≡ timeline_sample setup entries channel pair side }
    ensures values { (which : ℕ → Bool) (entries : List Entry) (place : PlaceView) (prop : Prop) (now : ℕ) →
        timeline_value (without_waiting which entries) place prop now ≡ timeline_value entries place prop now }
    ensures statuses { (setup : Setup) (which : ℕ → Bool) (entries : List Entry) →
        timeline_statuses setup (without_waiting which entries) ≡ timeline_statuses setup entries }
    ensures before { (which : ℕ → Bool) (later before : List Entry) → (some : ℕ → Bool) ×
        (without_waiting which (later ++ before) ≡ without_waiting which later ++ without_waiting some before) }
    ensures none { (which : ℕ → Bool) (entries : List Entry) (channel : ℕ) → which channel ≡ true →
        waiting_settings (timeline_acts (without_waiting which entries)) channel ≡ [] }
{}

/// After a commit a timeline shows, sounds, answers and reports what it does with the settings that waited for the commit in
/// its place, in their order and not deferred. All of them take effect after the ticks before the commit, so every tween of the
/// group counts from one tick.
pub fn commit_starts_its_group()
    ensures pixels { (setup : Setup) (later before : List Entry) (committed channel x y : ℕ) →
        timeline_pixel setup (later ++ Did (CommitMixer committed) ∷ before) channel x y
        ≡ timeline_pixel setup (later ++ with_group committed before) channel x y }
    ensures samples { (setup : Setup) (later before : List Entry) (committed channel pair side : ℕ) →
        timeline_sample setup (later ++ Did (CommitMixer committed) ∷ before) channel pair side
        ≡ timeline_sample setup (later ++ with_group committed before) channel pair side }
    ensures values { (later before : List Entry) (committed : ℕ) (place : PlaceView) (prop : Prop) (now : ℕ) →
        timeline_value (later ++ Did (CommitMixer committed) ∷ before) place prop now
        ≡ timeline_value (later ++ with_group committed before) place prop now }
    ensures statuses { (setup : Setup) (later before : List Entry) (committed : ℕ) →
        timeline_statuses setup (later ++ Did (CommitMixer committed) ∷ before)
        ≡ timeline_statuses setup (later ++ with_group committed before) }
    ensures together { (before : List Entry) (committed : ℕ) →
        timeline_acts (with_group committed before)
        ≡ map (settled_act (timeline_ticks before)) (waiting_settings (timeline_acts before) committed)
        ++ timeline_acts (without_waiting (λ other. committed == other) before) }
{}

/// A commit is never refused, whatever the history before it.
pub fn commits_are_accepted()
    ensures { (history : List Event) (tag : Tag) (committed : ℕ) → is_refused history (Do tag (CommitMixer committed)) ≡ false }
{}

/// A history shows, sounds, answers and reports what its timeline does without its waiting settings, of all channels or of
/// some. So does each first part of a history, by an earlier part of the timeline without waiting settings.
pub fn waiting_settings_of_histories_change_nothing()
    ensures pixels { (setup : Setup) (which : ℕ → Bool) (history : List Event) (channel x y : ℕ) →
        frame_pixel setup history channel x y ≡ timeline_pixel setup (without_waiting which (timeline history)) channel x y }
    ensures samples { (setup : Setup) (which : ℕ → Bool) (history : List Event) (channel pair side : ℕ) →
        frame_sample setup history channel pair side
        ≡ timeline_sample setup (without_waiting which (timeline history)) channel pair side }
    ensures values { (which : ℕ → Bool) (history : List Event) (place : PlaceView) (prop : Prop) (now : ℕ) →
        value history place prop now ≡ timeline_value (without_waiting which (timeline history)) place prop now }
    ensures statuses { (setup : Setup) (which : ℕ → Bool) (history : List Event) →
        statuses setup history ≡ timeline_statuses setup (without_waiting which (timeline history)) }
    ensures prefixes { (setup : Setup) (which : ℕ → Bool) (history later : List Event) →
        (more : List Entry) × (stood : List Entry)
        × (without_waiting which (timeline (history ++ later)) ≡ more ++ stood) × IsLikeTimeline setup history stood }
{}

/// If the timeline of a history has a commit, alone or in a batch, the history shows, sounds, answers and reports what the
/// timeline does with the group in the commit's place.
pub fn commit_in_a_history_starts_its_group()
    ensures pixels { (setup : Setup) (history : List Event) (later before : List Entry) (committed channel x y : ℕ) →
        timeline history ≡ later ++ Did (CommitMixer committed) ∷ before →
        frame_pixel setup history channel x y ≡ timeline_pixel setup (later ++ with_group committed before) channel x y }
    ensures samples { (setup : Setup) (history : List Event) (later before : List Entry) (committed channel pair side : ℕ) →
        timeline history ≡ later ++ Did (CommitMixer committed) ∷ before →
        frame_sample setup history channel pair side
        ≡ timeline_sample setup (later ++ with_group committed before) channel pair side }
    ensures values { (history : List Event) (later before : List Entry) (committed : ℕ) (place : PlaceView) (prop : Prop) (now : ℕ) →
        timeline history ≡ later ++ Did (CommitMixer committed) ∷ before →
        value history place prop now ≡ timeline_value (later ++ with_group committed before) place prop now }
    ensures statuses { (setup : Setup) (history : List Event) (later before : List Entry) (committed : ℕ) →
        timeline history ≡ later ++ Did (CommitMixer committed) ∷ before →
        statuses setup history ≡ timeline_statuses setup (later ++ with_group committed before) }
{}

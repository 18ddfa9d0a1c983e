//! Deferred settings by a list of those that wait, as an implementation keeps it.
ghost use Rattle.std.specs.Prelude.{◌≡◌, ℕ, ◌∷◌, ◌++◌, List};
ghost use Rattle.play_types.specs.Place.{PlaceView};
ghost use Rattle.play_types.specs.declared.setting.Prop.{Prop};
ghost use Rattle.history_model.specs.stage.WaitingList.{listed_acts, listed_value_at, resolved_act, waiting_after, waiting_list};
ghost use Rattle.history_model.specs.stage.Act.{Act};
ghost use Rattle.history_model.specs.stage.Resolved.{resolved_acts, waiting_settings};
ghost use Rattle.history_model.specs.stage.Value.{value_at};

/// The list holds the settings that wait, the resolved acts are the acts with each commit replaced by its list, and both give
/// equal values.
pub fn settings_by_the_list()
    ensures waiting { (acts : List Act) (channel : ℕ) → waiting_settings acts channel ≡ waiting_list acts channel }
    ensures acts { (acts : List Act) → resolved_acts acts ≡ listed_acts acts }
    ensures values { (acts : List Act) (place : PlaceView) (prop : Prop) (ticks : ℕ) →
        value_at acts place prop ticks ≡ listed_value_at acts place prop ticks }
{}

/// What one act more makes of the settings that wait, and what it adds to the resolved acts.
pub fn settings_after_one_more_act()
    ensures waiting { (act : Act) (before : List Act) (channel : ℕ) →
        waiting_settings (act ∷ before) channel ≡ waiting_after act.cmd channel (waiting_settings before channel) }
    ensures acts { (act : Act) (before : List Act) →
        resolved_acts (act ∷ before) ≡ resolved_act act.cmd act.ticks before ++ resolved_acts before }
{}

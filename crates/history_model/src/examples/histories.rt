//! Acts of a history, and refused events.
#![tactic(auto, unfolding(crate::specs::stage::Acts::acts, crate::specs::stage::Acts::is_refused))]

ghost use Rattle.std.specs.Prelude.{◌≡◌, ◌∷◌, ◌++◌, [], pos, true, false, is_some, length};
ghost use Rattle.play_types.specs.declared.command.Cmd.TheVariants.{Info, LoadBg, Play, PlayTake, Set, Value};
ghost use Rattle.play_types.specs.declared.event.Event.TheVariants.{Tick};
ghost use Rattle.play_types.specs.declared.setting.Prop.TheVariants.{Opacity};
ghost use Rattle.history_model.specs.stage.Act.{act_after};
ghost use Rattle.history_model.specs.stage.Acts.{acts, is_refused, with_command};
ghost use Rattle.history_model.specs.Worked.{ask, at, automatic, batch, blue, deferred, deferred_acts, loads, number, plays, red};

/// A play of a take is a load into the background and a play, both with the ticks before it, and does not start by itself.
/// Queries are no acts.
pub fn acts_of_commands()
    ensures play { acts (Tick ∷ plays (at 1 0) (automatic red) ∷ []) ≡ act_after 1 (Play (at 1 0)) ∷ act_after 1 (LoadBg (at 1 0) red) ∷ [] }
    ensures query { acts (ask (Value (at 1 0) Opacity) ∷ ask Info ∷ Tick ∷ []) ≡ [] }
{}

/// The acts of a batch all have the ticks that were before the batch, the last act first.
pub fn acts_of_a_batch()
    ensures { acts (Tick ∷ Tick ∷ batch (LoadBg (at 1 0) red ∷ Play (at 1 0) ∷ []) ∷ [])
        ≡ act_after 2 (Play (at 1 0)) ∷ act_after 2 (LoadBg (at 1 0) red) ∷ [] }
{}

/// The 64th live layer of a channel is accepted, the 65th is refused. A take on a layer that is already live, or on another
/// channel, is accepted.
pub fn sixty_fifth_live_layer()
    ensures last { is_refused (loads 63) (plays (at 1 63) red) ≡ false }
    ensures too_many { is_refused (loads 64) (plays (at 1 64) red) ≡ true }
    ensures live { is_refused (loads 64) (plays (at 1 3) red) ≡ false }
    ensures other { is_refused (loads 64) (plays (at 2 64) red) ≡ false }
{}

/// A refused event gives no acts.
pub fn acts_of_a_refused_event()
    ensures { length (acts (loads 64 ++ plays (at 1 64) red ∷ [])) ≡ 64 }
{}

/// A batch is refused as a whole because of its last command, and accepted if each command is.
pub fn batch_with_a_refused_command()
    ensures refused { is_refused (loads 64) (batch (PlayTake (at 1 63) blue ∷ PlayTake (at 1 64) red ∷ [])) ≡ true }
    ensures accepted { is_refused (loads 64) (batch (PlayTake (at 1 63) blue ∷ PlayTake (at 1 62) red ∷ [])) ≡ false }
    ensures no_acts { length (acts (loads 64 ++ batch (PlayTake (at 1 63) blue ∷ PlayTake (at 1 64) red ∷ []) ∷ [])) ≡ 64 }
{}

/// The 1,024th waiting setting of a channel is accepted, the 1,025th is refused.
pub fn waiting_setting_1025()
    ensures last { is_some (with_command (deferred_acts 1023) 0 (Set (deferred (at 1 7) Opacity (number (pos 0))))) ≡ true }
    ensures too_many { is_some (with_command (deferred_acts 1024) 0 (Set (deferred (at 1 7) Opacity (number (pos 0))))) ≡ false }
    ensures other { is_some (with_command (deferred_acts 1024) 0 (Set (deferred (at 2 7) Opacity (number (pos 0))))) ≡ true }
{}

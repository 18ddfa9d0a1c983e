//! Whether the stage takes a command or a batch of a script's line, and a whole script.

ghost use Rattle.std.specs.Prelude.{◌≡◌, ◌∷◌, [], codes, pos, true, false};
ghost use Rattle.play_types.specs.declared.command.Cmd.TheVariants.{ClearLayer, Pause, PlayTake, Set};
ghost use Rattle.play_types.specs.declared.event.Event.TheVariants.{Tick};
ghost use Rattle.play_types.specs.declared.reply.Name.TheVariants as name;
ghost use Rattle.play_types.specs.declared.reply.Reply.TheVariants as reply;
ghost use Rattle.play_types.specs.declared.setting.Prop.TheVariants.{Opacity};
ghost use Rattle.history_model.specs.scripts.History.{JournalFull, OutOfMemory, Taken, script_events, verdict};
ghost use Rattle.history_model.specs.scripts.Output.{ask_reply, batch_reply, script_output};
ghost use Rattle.history_model.specs.Worked.{at, batch, loads, number, one_pixel, played, plays, red, setting, turn_after};

/// The journal of these requests holds at most one command, and does not count ticks as commands. Its limit is checked before memory.
pub fn verdicts_in_order()
    ensures taken { verdict (turn_after (Tick ∷ Tick ∷ []) false) 1 ≡ Taken }
    ensures no_memory { verdict (turn_after [] true) 1 ≡ OutOfMemory }
    ensures full { verdict (turn_after (plays (at 1 0) red ∷ []) true) 1 ≡ JournalFull }
    ensures batch { verdict (turn_after [] true) 2 ≡ JournalFull }
{}

/// A command for which there is no memory is answered 501, and one above the limit of the journal 503.
pub fn replies_to_commands()
    ensures no_memory { ask_reply (turn_after [] true) (Pause (at 1 5)) ≡ reply.Refused 501 name.Pause }
    ensures full { ask_reply (turn_after (plays (at 1 0) red ∷ []) true) (Pause (at 1 5)) ≡ reply.Refused 503 name.Pause }
{}

/// The journal of these requests has room for a batch of one command, and not for one of two. In a larger journal the stage's
/// answer is the reply: a batch is done, or refused if one channel would have too many live places.
#[tactic(auto, unfolding(crate::specs::stage::Acts::acts, crate::specs::stage::Acts::is_refused))]
pub fn replies_to_batches()
    ensures no_memory { batch_reply (turn_after [] true) (Pause (at 1 5) ∷ []) ≡ reply.Refused 501 name.Commit }
    ensures full { batch_reply (turn_after [] true) (Pause (at 1 5) ∷ ClearLayer (at 1 5) ∷ []) ≡ reply.Refused 503 name.Commit }
    ensures done { batch_reply (record (turn_after [] false) { playout = one_pixel }) (Pause (at 1 5) ∷ ClearLayer (at 1 5) ∷ []) ≡ reply.Done name.Commit }
    ensures refused { batch_reply (record (turn_after (loads 64) false) { playout = one_pixel }) (PlayTake (at 1 63) red ∷ PlayTake (at 1 64) red ∷ [])
        ≡ reply.Refused 403 name.Commit }
{}

/// A batch in a script of one connection. Each of its commands is answered when it is put into the batch. The COMMIT is one event,
/// at which both of them act, and the tick shows what they leave: red at half its opacity.
pub fn batch_in_a_script()
    ensures history { script_events one_pixel
        (played (codes "1.1 BEGIN") ∷ played (codes "1.1 PLAY 1-0 RED") ∷ played (codes "1.1 MIXER 1-0 OPACITY 0.5")
        ∷ played (codes "1.1 COMMIT") ∷ played (codes "T") ∷ [])
        ≡ batch (PlayTake (at 1 0) red ∷ Set (setting (at 1 0) Opacity (number (pos 500000)) 0) ∷ []) ∷ Tick ∷ [] }
    ensures output { script_output one_pixel
        (played (codes "1.1 BEGIN") ∷ played (codes "1.1 PLAY 1-0 RED") ∷ played (codes "1.1 MIXER 1-0 OPACITY 0.5")
        ∷ played (codes "1.1 COMMIT") ∷ played (codes "T") ∷ [])
        ≡ codes "1.1 202 BEGIN OK\n1.1 202 PLAY OK\n1.1 202 MIXER OK\n1.1 202 COMMIT OK\nF 1 1\n00008080\n" }
{}

//! A worked history, and worked cuts of logs. The checker computes the text of the history, what the text does and writes when it is
//! played, and what is left of the logs.

ghost use Rattle.std.specs.Prelude.{◌≡◌, ◌∷◌, ◌++◌, [], codes, map};
ghost use Rattle.play_types.specs.declared.command.Cmd.TheVariants.{ClearLayer, Pause};
ghost use Rattle.play_types.specs.declared.event.Event.TheVariants.{Tick};
ghost use Rattle.history_model.specs.Worked.{at, batch, one_pixel};
ghost use Rattle.history_model.specs.scripts.History.{script_events};
ghost use Rattle.history_model.specs.scripts.Output.{script_output};
ghost use Rattle.history_model.specs.text.History.{history_text, log_text};
ghost use Rattle.history_model.specs.scripts.Memory.{with_memory};
ghost use Rattle.history_replay.specs.Cut.{open_lines, whole_lines};
ghost use Rattle.history_replay.specs.Replay.{script_of};
ghost use Rattle.history_replay.specs.Worked.{worked_history, worked_tag, worked_text};
ghost use Rattle.history_replay.specs.declared.limits.TheConstants.{MAX_PRINTED_NAME_BYTES};

/// The text of the history, and the history of the text: a red picture, whose opacity of one half waits for the commit while two
/// ticks show it opaque, and a batch.
pub fn worked_history_is_played_again()
    ensures text { history_text one_pixel.names worked_history ≡ worked_text }
    ensures history { script_events one_pixel (map with_memory (script_of worked_text)) ≡ worked_history }
    ensures output { script_output one_pixel (map with_memory (script_of worked_text))
        ≡ codes "1.1 202 PLAY OK\n1.1 202 MIXER OK\nF 1 1\n0000ffff\nF 1 2\n0000ffff\n1.1 202 BEGIN OK\n1.1 202 PAUSE OK\n1.1 202 CLEAR OK\n1.1 202 COMMIT OK\n1.1 202 MIXER OK\nF 1 3\n00008080\n" }
{}

/// The whole lines of logs that were cut. `T 1` is dropped, since it may be what is left of `T 12`.
pub fn whole_lines_of_cut_logs()
    ensures number { whole_lines (codes "T 2\nT 1") ≡ codes "T 2\n" }
    ensures first { whole_lines (codes "T 1") ≡ [] }
    ensures ended { whole_lines (codes "T 2\nX\n") ≡ codes "T 2\nX\n" }
    ensures batch { whole_lines (codes "T 2\n1.1 BEGIN\n1.1 PAUSE 1-0\n1.1 CLEAR 1-") ≡ codes "T 2\n1.1 BEGIN\n1.1 PAUSE 1-0\n" }
{}

/// A cut between two lines of ticks leaves a log, and so does a cut between two events. A cut within a batch leaves a log and
/// the first lines of the batch.
pub fn lines_of_cut_logs()
    ensures whole { log_text [] ((Tick ∷ Tick ∷ []) ∷ (Tick ∷ batch (Pause (at 1 0) ∷ ClearLayer (at 1 5) ∷ []) ∷ []) ∷ [])
        ≡ codes "T 2\nT 1\n1.1 BEGIN\n1.1 PAUSE 1-0\n1.1 CLEAR 1-5\n1.1 COMMIT\n" }
    ensures ticks { log_text [] ((Tick ∷ Tick ∷ []) ∷ []) ≡ codes "T 2\n" }
    ensures batch { log_text [] ((Tick ∷ Tick ∷ []) ∷ (Tick ∷ []) ∷ []) ++ open_lines [] worked_tag (Pause (at 1 0) ∷ [])
        ≡ codes "T 2\nT 1\n1.1 BEGIN\n1.1 PAUSE 1-0\n" }
{}

/// The most bytes of the name of a clip that a replay can print, as a number.
pub fn limits()
    ensures { MAX_PRINTED_NAME_BYTES ≡ 3900 }
{}

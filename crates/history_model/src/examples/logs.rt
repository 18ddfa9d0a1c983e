//! Logs: histories that were written piece by piece.
#![tactic(auto, unfolding(crate::specs::text::History::history_text, crate::specs::text::History::tick_lines))]

ghost use Rattle.std.specs.Prelude.{◌≡◌, ◌∷◌, ◌++◌, [], codes};
ghost use Rattle.play_types.specs.declared.command.Cmd.TheVariants.{Pause};
ghost use Rattle.play_types.specs.declared.event.Event.TheVariants.{Stop, Tick};
ghost use Rattle.history_model.specs.scripts.History.{server};
ghost use Rattle.history_model.specs.text.History.{history_text, joined_events, log_text};
ghost use Rattle.history_model.specs.Worked.{ask, at};

/// Ticks in a row of one piece are written in one line, and those of two pieces in two. A piece without events has no line.
pub fn ticks_of_two_pieces()
    ensures one { log_text [] ((Tick ∷ Tick ∷ Tick ∷ []) ∷ []) ≡ codes "T 3\n" }
    ensures two { log_text [] ((Tick ∷ Tick ∷ []) ∷ (Tick ∷ []) ∷ []) ≡ codes "T 2\nT 1\n" }
    ensures empty { log_text [] ([] ∷ (Tick ∷ []) ∷ [] ∷ []) ≡ codes "T 1\n" }
    ensures none { log_text [] [] ≡ [] }
{}

/// The events of the pieces are the history, in its order, and a piece may begin within a row of ticks.
pub fn events_of_pieces()
    ensures events { joined_events ((Tick ∷ ask (Pause (at 1 5)) ∷ Tick ∷ []) ∷ [] ∷ (Tick ∷ Stop server ∷ []) ∷ [])
        ≡ Tick ∷ ask (Pause (at 1 5)) ∷ Tick ∷ Tick ∷ Stop server ∷ [] }
    ensures text { log_text [] ((Tick ∷ []) ∷ (Tick ∷ Stop server ∷ []) ∷ []) ≡ codes "T 1\nT 1\nX\n" }
    ensures whole { log_text [] ((Tick ∷ Stop server ∷ []) ∷ []) ≡ history_text [] (Tick ∷ Stop server ∷ []) }
{}

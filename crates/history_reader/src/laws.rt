//! Laws of the texts of histories. Each is the contract of a function that does nothing.
ghost use Rattle.std.specs.Prelude.{◌≡◌, [], ℕ, List, None};
ghost use mathlib.Core.List.{IsPrefix};
ghost use Rattle.play_types.specs.declared.event.Event.{Event};
ghost use Rattle.history_model.specs.scripts.History.{Playout};
ghost use Rattle.history_model.specs.scripts.Input.{unended};
ghost use Rattle.history_model.specs.text.History.{history_text, joined_events, log_text};
ghost use Rattle.history_replay.specs.Replay.{IsReplayable};
ghost use Rattle.history_reader.specs.HistoryText.{events_before_stop, faulty_line, text_events};

/// The text of a history that a server can have written has no faulty line, and reads back as the history without its stop. No byte of
/// it is left out.
pub fn histories_read_back()
    ensures right { (playout : Playout) (history : List Event) → IsReplayable playout history →
        faulty_line playout (history_text playout.names history) ≡ None }
    ensures events { (playout : Playout) (history : List Event) → IsReplayable playout history →
        text_events playout (history_text playout.names history) ≡ events_before_stop history }
    ensures whole { (playout : Playout) (history : List Event) → IsReplayable playout history →
        unended (history_text playout.names history) ≡ [] }
{}

/// So does a log, however its history was divided into pieces.
pub fn logs_read_back()
    ensures right { (playout : Playout) (pieces : List (List Event)) → IsReplayable playout (joined_events pieces) →
        faulty_line playout (log_text playout.names pieces) ≡ None }
    ensures events { (playout : Playout) (pieces : List (List Event)) → IsReplayable playout (joined_events pieces) →
        text_events playout (log_text playout.names pieces) ≡ events_before_stop (joined_events pieces) }
    ensures whole { (playout : Playout) (pieces : List (List Event)) → IsReplayable playout (joined_events pieces) →
        unended (log_text playout.names pieces) ≡ [] }
{}

/// A log that was cut anywhere, as by a server that was killed, has no faulty line either, and reads back as the first events of the
/// history.
pub fn cut_logs_read_back()
    ensures right { (playout : Playout) (pieces : List (List Event)) (cut : List ℕ) → IsReplayable playout (joined_events pieces) →
        IsPrefix cut (log_text playout.names pieces) → faulty_line playout cut ≡ None }
    ensures events { (playout : Playout) (pieces : List (List Event)) (cut : List ℕ) → IsReplayable playout (joined_events pieces) →
        IsPrefix cut (log_text playout.names pieces) → IsPrefix (text_events playout cut) (joined_events pieces) }
{}

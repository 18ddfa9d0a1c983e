//! Laws of replay. Each is the contract of a function that does nothing.
ghost use Rattle.std.specs.Prelude.{◌≡◌, ◌∷◌, ◌++◌, [], ℕ, All, List, false, map, not};
ghost use Rattle.std.specs.List.{list_any};
ghost use Rattle.std.specs.Str.Lines.{lines};
ghost use mathlib.Core.List.{IsPrefix};
ghost use Rattle.amcp_text.specs.Lines.{is_line_end};
ghost use Rattle.play_types.specs.History.{is_stop};
ghost use Rattle.play_types.specs.declared.event.Event.{Event};
ghost use Rattle.history_model.specs.scripts.History.{PlayedLine, Playout, goes_on, script_events};
ghost use Rattle.history_model.specs.scripts.Input.{ended_lines};
ghost use Rattle.history_model.specs.scripts.Memory.{HasMemory, lines_played, with_memory};
ghost use Rattle.history_model.specs.scripts.Output.{script_output};
ghost use Rattle.history_model.specs.sessions.Session.{steps};
ghost use Rattle.history_model.specs.text.History.{history_text, joined_events, log_text};
ghost use Rattle.history_replay.specs.Cut.{IsCutLog, whole_lines};
ghost use Rattle.history_replay.specs.Replay.{IsAccepted, IsPlayout, IsReplayable, IsWrittenStep, NamesConnection, NamesShortClips, script_of};
ghost use Rattle.history_replay.specs.ReplayOutput.{history_output};

/// The text of a history that a server can have written is a script with this history.
///
/// Each line of it is one that a script may have. Played with enough memory, it makes the events of the history one by one,
/// writes their answers and their frames, and ends exactly if the history has a stop.
pub fn text_plays_its_history()
    ensures accepted { (playout : Playout) (history : List Event) → IsReplayable playout history →
        All IsAccepted (script_of (history_text playout.names history)) }
    ensures history { (playout : Playout) (history : List Event) → IsReplayable playout history →
        script_events playout (map with_memory (script_of (history_text playout.names history))) ≡ history }
    ensures output { (playout : Playout) (history : List Event) → IsReplayable playout history →
        script_output playout (map with_memory (script_of (history_text playout.names history))) ≡ history_output playout history }
    ensures goes_on { (playout : Playout) (history : List Event) → IsReplayable playout history →
        goes_on playout (map with_memory (script_of (history_text playout.names history))) ≡ not (list_any is_stop history) }
{}

/// Each run of the text in which no reply reports that memory ran out makes the history and writes its output. There is such
/// a run: the one in which memory never runs out.
///
/// If memory runs out, it is not determined which lines a session gives up, nor for which commands the stage has no memory:
/// such a line is answered 500, and such a command 501.
pub fn replays_have_the_history()
    ensures history { (playout : Playout) (history : List Event) (played : List PlayedLine) → IsReplayable playout history →
        lines_played played ≡ script_of (history_text playout.names history) → HasMemory playout played →
        script_events playout played ≡ history }
    ensures output { (playout : Playout) (history : List Event) (played : List PlayedLine) → IsReplayable playout history →
        lines_played played ≡ script_of (history_text playout.names history) → HasMemory playout played →
        script_output playout played ≡ history_output playout history }
    ensures some { (playout : Playout) (text : List ℕ) → HasMemory playout (map with_memory (script_of text)) }
{}

/// The text of a log plays the history of its pieces, however the history was divided: consecutive ticks in two pieces are
/// written as two lines.
///
/// Each law of the text of a history is the law of a log of one piece.
pub fn logs_play_their_histories()
    ensures accepted { (playout : Playout) (pieces : List (List Event)) → IsReplayable playout (joined_events pieces) →
        All IsAccepted (script_of (log_text playout.names pieces)) }
    ensures history { (playout : Playout) (pieces : List (List Event)) → IsReplayable playout (joined_events pieces) →
        script_events playout (map with_memory (script_of (log_text playout.names pieces))) ≡ joined_events pieces }
    ensures output { (playout : Playout) (pieces : List (List Event)) → IsReplayable playout (joined_events pieces) →
        script_output playout (map with_memory (script_of (log_text playout.names pieces))) ≡ history_output playout (joined_events pieces) }
    ensures goes_on { (playout : Playout) (pieces : List (List Event)) → IsReplayable playout (joined_events pieces) →
        goes_on playout (map with_memory (script_of (log_text playout.names pieces))) ≡ not (list_any is_stop (joined_events pieces)) }
{}

/// Each run of a log in which no reply reports that memory ran out makes the history and writes its output.
pub fn replays_of_logs_have_the_history()
    ensures history { (playout : Playout) (pieces : List (List Event)) (played : List PlayedLine) → IsReplayable playout (joined_events pieces) →
        lines_played played ≡ script_of (log_text playout.names pieces) → HasMemory playout played →
        script_events playout played ≡ joined_events pieces }
    ensures output { (playout : Playout) (pieces : List (List Event)) (played : List PlayedLine) → IsReplayable playout (joined_events pieces) →
        lines_played played ≡ script_of (log_text playout.names pieces) → HasMemory playout played →
        script_output playout played ≡ history_output playout (joined_events pieces) }
{}

/// A log that was cut anywhere, as by a server that was killed, plays the beginning of its history, if what follows its last
/// line feed is dropped. That may be a part of a line: `T 1` may be left of `T 12`.
///
/// What is left is a log of the first events, and then nothing or the first lines of the batch that is the next event. These
/// make no event without their COMMIT. So a cut loses only events whose lines are not all in the text.
pub fn cut_logs_play_the_beginning()
    ensures accepted { (playout : Playout) (pieces : List (List Event)) (cut : List ℕ) → IsReplayable playout (joined_events pieces) →
        IsPrefix cut (log_text playout.names pieces) → All IsAccepted (script_of (whole_lines cut)) }
    ensures history { (playout : Playout) (pieces : List (List Event)) (cut : List ℕ) → IsReplayable playout (joined_events pieces) →
        IsPrefix cut (log_text playout.names pieces) →
        IsPrefix (script_events playout (map with_memory (script_of (whole_lines cut)))) (joined_events pieces) }
    ensures replays { (playout : Playout) (pieces : List (List Event)) (cut : List ℕ) (played : List PlayedLine) →
        IsReplayable playout (joined_events pieces) → IsPrefix cut (log_text playout.names pieces) →
        lines_played played ≡ script_of (whole_lines cut) → HasMemory playout played →
        IsPrefix (script_events playout played) (joined_events pieces) }
    ensures log { (playout : Playout) (pieces : List (List Event)) (cut : List ℕ) → IsReplayable playout (joined_events pieces) →
        IsPrefix cut (log_text playout.names pieces) → IsCutLog playout.names (joined_events pieces) (whole_lines cut) }
    ensures made { (playout : Playout) (history : List Event) (text : List ℕ) → IsReplayable playout history →
        (log : IsCutLog playout.names history text) →
        script_events playout (map with_memory (script_of text)) ≡ joined_events log.kept }
{}

/// The whole lines of a text are its bytes up to and including its last line feed, and none if it has no line feed. Their lines
/// are the lines of the text that have ended.
pub fn whole_lines_end_with_the_last_line_feed()
    ensures last { (front rest : List ℕ) → list_any is_line_end rest ≡ false → whole_lines (front ++ 10 ∷ rest) ≡ front ++ 10 ∷ [] }
    ensures none { (text : List ℕ) → list_any is_line_end text ≡ false → whole_lines text ≡ [] }
    ensures ended { (text : List ℕ) → lines (whole_lines text) ≡ ended_lines text }
{}

/// Each history that a script makes can be played again from its text, even if memory ran out: each command that a connection
/// asks the stage for is one that some words ask for, and each batch has no query and at most 256 commands. The clips that the
/// history names must have short names.
pub fn histories_of_scripts_are_played_again()
    ensures steps { (playout : Playout) (given_up stream : List ℕ) →
        All (IsWrittenStep playout) (steps playout.config playout.names given_up stream) }
    ensures tags { (text : List ℕ) → All NamesConnection (script_of text) }
    ensures replayable { (playout : Playout) (played : List PlayedLine) → IsPlayout playout → All NamesConnection (lines_played played) →
        All (NamesShortClips playout.names) (script_events playout played) → IsReplayable playout (script_events playout played) }
    ensures again { (playout : Playout) (text : List ℕ) (played : List PlayedLine) → IsPlayout playout → lines_played played ≡ script_of text →
        All (NamesShortClips playout.names) (script_events playout played) →
        let history = script_events playout played in
        script_events playout (map with_memory (script_of (history_text playout.names history))) ≡ history }
{}

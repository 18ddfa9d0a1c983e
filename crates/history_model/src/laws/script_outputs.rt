//! The output of a script, line by line.
ghost use Rattle.std.specs.Prelude.{◌≡◌, ℕ, ◌∷◌, ◌++◌, Bool, List, map, true};
ghost use Rattle.play_types.specs.declared.event.Event.{Event};
ghost use Rattle.history_model.specs.scripts.History.{PlayedLine, Playout, goes_on, script_events};
ghost use Rattle.history_model.specs.scripts.Line.{ScriptLine, until_stop};
ghost use Rattle.history_model.specs.scripts.Memory.{AreLines, HasMemory, input_lines, lines_played, with_memory};
ghost use Rattle.history_model.specs.scripts.Output.{output_at, script_output};
ghost use Rattle.history_model.specs.scripts.Replies.{script_replies};
ghost use Rattle.history_model.specs.scripts.Struck.{IsIdleLine};

/// The output and the events of a script begin with those of its first lines, whatever follows.
pub fn later_lines_only_add()
    ensures output { (playout : Playout) (lines later : List PlayedLine) → (more : List ℕ) ×
        (script_output playout (lines ++ later) ≡ script_output playout lines ++ more) }
    ensures history { (playout : Playout) (lines later : List PlayedLine) → (more : List Event) ×
        (script_events playout (lines ++ later) ≡ script_events playout lines ++ more) }
{}

/// No text of a connection in the lines of an input has a line end. This holds too for the lines up to the first stop, and for
/// each part of the lines. The laws below require it, and so hold for every input.
pub fn lines_of_inputs_are_lines()
    ensures all { (bytes : List ℕ) (ended : Bool) → AreLines (input_lines bytes ended) }
    ensures stopped { (lines : List ScriptLine) → AreLines lines → AreLines (until_stop lines) }
    ensures first { (lines later : List ScriptLine) → AreLines (lines ++ later) → AreLines lines }
    ensures last { (lines later : List ScriptLine) → AreLines (lines ++ later) → AreLines later }
{}

/// Two runs of equal lines in which no reply says that memory ran out have equal outputs, replies and histories. Every list of
/// lines has such a run.
pub fn runs_with_memory_are_equal()
    ensures output { (playout : Playout) (one other : List PlayedLine) → AreLines (lines_played one) → lines_played one ≡ lines_played other →
        HasMemory playout one → HasMemory playout other → script_output playout one ≡ script_output playout other }
    ensures replies { (playout : Playout) (one other : List PlayedLine) → AreLines (lines_played one) → lines_played one ≡ lines_played other →
        HasMemory playout one → HasMemory playout other → script_replies playout one ≡ script_replies playout other }
    ensures history { (playout : Playout) (one other : List PlayedLine) → AreLines (lines_played one) → lines_played one ≡ lines_played other →
        HasMemory playout one → HasMemory playout other → script_events playout one ≡ script_events playout other }
    ensures some { (playout : Playout) (lines : List ScriptLine) → HasMemory playout (map with_memory lines) }
{}

/// A line that changes nothing can be left out: the rest of the output and the history do not change. Such a line is a comment,
/// or a connection's line that is refused, that was given up, that has no word, that only asks for the media or the version, or
/// that follows the connection's end.
pub fn idle_lines_can_be_struck_out()
    ensures output { (playout : Playout) (before : List PlayedLine) (line : PlayedLine) (later : List PlayedLine) →
        AreLines (lines_played (before ++ line ∷ later)) → goes_on playout before ≡ true → IsIdleLine playout before line line.line →
        (rest : List ℕ)
        × (script_output playout (before ++ line ∷ later) ≡ script_output playout before ++ output_at playout before line line.line ++ rest)
        × (script_output playout (before ++ later) ≡ script_output playout before ++ rest) }
    ensures history { (playout : Playout) (before : List PlayedLine) (line : PlayedLine) (later : List PlayedLine) →
        AreLines (lines_played (before ++ line ∷ later)) → goes_on playout before ≡ true → IsIdleLine playout before line line.line →
        script_events playout (before ++ line ∷ later) ≡ script_events playout (before ++ later) }
{}

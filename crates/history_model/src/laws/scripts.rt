//! The histories of scripts, the commands that words ask for, and what streams of lines ask the stage for.
ghost use Rattle.std.specs.Prelude.{◌≡◌, ◌≤◌, All, List, None, Ok, true};
ghost use Rattle.play_types.specs.Config.{ConfigView};
ghost use Rattle.play_types.specs.History.{IsHistory, held, stop_at};
ghost use Rattle.play_types.specs.Media.{MediaNameView};
ghost use Rattle.play_types.specs.declared.command.Cmd.{Cmd};
ghost use Rattle.play_types.specs.declared.parsed.Parsed.TheVariants.{Stage};
ghost use Rattle.history_model.specs.commands.Channels.{IsAimed};
ghost use Rattle.history_model.specs.commands.Command.{parsed};
ghost use Rattle.history_model.specs.scripts.History.{PlayedLine, Playout, goes_on, script_events};
ghost use Rattle.history_model.specs.sessions.Session.{IsAimedStep, IsFilledStep, steps};
ghost use Rattle.std.specs.Prelude.{ℕ};

/// The history of a script has no empty batch, has nothing after a stop, and is within the limit of the journal. It has no stop
/// while the run goes on.
pub fn histories_of_scripts()
    ensures history { (playout : Playout) (lines : List PlayedLine) → IsHistory (script_events playout lines) }
    ensures limit { (playout : Playout) (lines : List PlayedLine) → held (script_events playout lines) ≤ playout.config.journal_limit }
    ensures running { (playout : Playout) (lines : List PlayedLine) → goes_on playout lines ≡ true → stop_at (script_events playout lines) ≡ None }
{}

/// A command that words ask for names configured channels alone, by its places, by a number and by the route that it plays.
pub fn commands_of_words()
    ensures { (config : ConfigView) (media : List MediaNameView) (words : List (List ℕ)) (command : Cmd) →
        parsed config media words ≡ Ok (Stage command) → IsAimed config command }
{}

/// What a stream of lines asks the stage for names configured channels alone, whichever lines were given up: each command, and each
/// command of a batch. A batch that it asks for is not empty.
pub fn steps_of_streams()
    ensures aimed { (config : ConfigView) (media : List MediaNameView) (given_up stream : List ℕ) → All (IsAimedStep config) (steps config media given_up stream) }
    ensures filled { (config : ConfigView) (media : List MediaNameView) (given_up stream : List ℕ) → All IsFilledStep (steps config media given_up stream) }
{}

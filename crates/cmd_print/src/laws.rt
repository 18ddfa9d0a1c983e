//! Laws of printing. Each is the contract of a function that does nothing.
ghost use Rattle.std.specs.Prelude.{◌≡◌, ℕ, ◌++◌, List, map, replicate, Ok, All};
ghost use Rattle.amcp_text.specs.Tokens.{words_of};
ghost use Rattle.play_types.specs.Config.{ConfigView, IsConfig};
ghost use Rattle.play_types.specs.Media.{IsMediaName, MediaNameView};
ghost use Rattle.play_types.specs.declared.command.Cmd.{Cmd};
ghost use Rattle.play_types.specs.declared.event.Event.{Event};
ghost use Rattle.play_types.specs.declared.parsed.Parsed.TheVariants.{Stage};
ghost use Rattle.history_model.specs.commands.Command.{parsed};
ghost use Rattle.history_model.specs.text.Commands.{command_text, command_words, word_meant};
ghost use Rattle.history_model.specs.text.History.{FollowRun, IsRun, history_text};

/// A client's line with the text of a command asks for that command.
///
/// The text is split into the words of the command, whatever characters the name of a clip has, as it is quoted and escaped.
/// If the words of some line ask for the command, by a configuration and a media table, these words ask for it by them too.
pub fn printed_commands_read_back()
    ensures words { (media : List MediaNameView) (command : Cmd) →
        words_of (command_text media command) ≡ Ok (map word_meant (command_words media command)) }
    ensures meaning { (config : ConfigView) (media : List MediaNameView) (words : List (List ℕ)) (command : Cmd) →
        IsConfig config → All IsMediaName media → parsed config media words ≡ Ok (Stage command) →
        parsed config media (map word_meant (command_words media command)) ≡ Ok (Stage command) }
{}

/// The text of a history is that of its runs, one after another: ticks in a row are one run, and each other event is one.
pub fn history_text_by_runs()
    ensures { (media : List MediaNameView) (event : Event) (times : ℕ) (later : List Event) →
        IsRun event times → FollowRun event later →
        history_text media (replicate times event ++ later)
        ≡ history_text media (replicate times event) ++ history_text media later }
{}

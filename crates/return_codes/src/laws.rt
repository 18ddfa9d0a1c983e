//! Laws of the definitions of replies, each the contract of a function that does nothing.
ghost use Rattle.std.specs.Prelude.{◌≡◌, List, length};
ghost use Rattle.play_types.specs.Commands.{answer_reply, command_name};
ghost use Rattle.play_types.specs.Config.{ConfigView};
ghost use Rattle.play_types.specs.declared.answer.Answer.{Answer};
ghost use Rattle.play_types.specs.declared.command.Cmd.{Cmd};
ghost use Rattle.play_types.specs.declared.event.Event.{Event};
ghost use Rattle.play_types.specs.declared.event.Event.TheVariants.{Batch, Do};
ghost use Rattle.play_types.specs.declared.event.Tag.{Tag};
ghost use Rattle.play_types.specs.declared.reply.Name.TheVariants.{Commit};
ghost use Rattle.history_model.specs.pictures.Media.{Setup};
ghost use Rattle.history_model.specs.stage.Answer.{Answered, answer};
ghost use Rattle.history_model.specs.text.Replies.{IsReplyTo};

/// The reply with the answer to a command, or to a batch, can be sent by a server whose configuration has as many channels as
/// the stage.
pub fn answers_are_told()
    ensures command { (config : ConfigView) (setup : Setup) (history : List Event) (tag : Tag) (command : Cmd) (found : Answer) →
        length setup.channels ≡ length config.channels → answer setup history (Do tag command) ≡ Answered found
        → IsReplyTo config (answer_reply (command_name command) found) }
    ensures batch { (config : ConfigView) (setup : Setup) (history : List Event) (tag : Tag) (commands : List Cmd) (found : Answer) →
        answer setup history (Batch tag commands) ≡ Answered found → IsReplyTo config (answer_reply Commit found) }
{}

//! Worked streams. Each function does nothing, and its contract gives the steps of lines. There is one channel, and no clip.
#![tactic(auto, unfolding(play_types::specs::Words::is_word, play_types::specs::Words::is_same_name, history_model::specs::commands::Places::area_of, history_model::specs::commands::Options::options_at, history_model::specs::commands::Producer::producer_of, history_model::specs::commands::Producer::take_at, history_model::specs::commands::Command::play, play_types::specs::Words::name_of, play_types::specs::Words::kind_of, play_types::specs::Words::prop_of, history_model::specs::commands::Command::parsed, history_model::specs::sessions::Line::line_meaning, history_model::specs::sessions::Session::asks, history_model::specs::sessions::Session::line_steps))]

ghost use Rattle.std.specs.Prelude.{◌≡◌, ◌∷◌, [], None, Some, codes};
ghost use Rattle.amcp_text.specs.Lines.{TooLong};
ghost use Rattle.play_types.specs.declared.command.Cmd.TheVariants.{StopLayer, Info};
ghost use Rattle.play_types.specs.declared.reply.Name.TheVariants as name;
ghost use Rattle.play_types.specs.declared.reply.Reply.TheVariants.{Done, Cls, Version, Refused, Unknown, NoMemory};
ghost use Rattle.history_model.specs.sessions.Session.{Local, Ask, AskBatch, KillServer, EndConnection, Skip};
ghost use Rattle.play_session.specs.Worked.{gives, gives_without, line, layer, wrong_words};

/// Replies that do not need the stage, while no batch is open.
pub fn replies()
    ensures refused { gives (line "FROB 1" ∷ line "PAUSE" ∷ line "PAUSE 2-0" ∷ line "PAUSE 1-x" ∷ line "PLAY 1-0 NONE" ∷ [])
        ≡ Local (Unknown (codes "FROB 1")) ∷ Local (Refused 402 name.Pause) ∷ Local (Refused 401 name.Pause) ∷ Local (Refused 403 name.Pause) ∷ Local (Refused 404 name.Play) ∷ [] }
    ensures given { gives (line "CLS" ∷ line "VERSION" ∷ line "COMMIT" ∷ line "DISCARD" ∷ [])
        ≡ Local Cls ∷ Local Version ∷ Local (Refused 403 name.Commit) ∷ Local (Refused 403 name.Discard) ∷ [] }
{}

/// What opens a batch, and what closes it.
pub fn batches()
    ensures discarded { gives (line "BEGIN" ∷ line "FROB 1" ∷ line "DISCARD" ∷ line "COMMIT" ∷ [])
        ≡ Local (Done name.Begin) ∷ Local (Unknown (codes "FROB 1")) ∷ Local (Done name.Discard) ∷ Local (Refused 403 name.Commit) ∷ [] }
    ensures committed { gives (line "BEGIN" ∷ line "STOP 1-2" ∷ line "COMMIT" ∷ line "STOP 1-2" ∷ [])
        ≡ Local (Done name.Begin) ∷ Local (Done name.Stop) ∷ AskBatch (StopLayer (layer 2) ∷ []) ∷ Ask (StopLayer (layer 2)) ∷ [] }
    ensures empty { gives (line "BEGIN" ∷ line "COMMIT" ∷ line "COMMIT" ∷ [])
        ≡ Local (Done name.Begin) ∷ Local (Done name.Commit) ∷ Local (Refused 403 name.Commit) ∷ [] }
    ensures second_begin { gives (line "BEGIN" ∷ line "STOP 1-2" ∷ line "BEGIN" ∷ line "COMMIT" ∷ [])
        ≡ Local (Done name.Begin) ∷ Local (Done name.Stop) ∷ Local (Refused 403 name.Begin) ∷ AskBatch (StopLayer (layer 2) ∷ []) ∷ [] }
    ensures refused { gives (line "BEGIN" ∷ line "STOP 1-2" ∷ line "STOP 2-2" ∷ line "INFO" ∷ TooLong ∷ line "COMMIT" ∷ [])
        ≡ Local (Done name.Begin) ∷ Local (Done name.Stop) ∷ Local (Refused 401 name.Stop) ∷ Local (Refused 403 name.Info) ∷ Local (Unknown []) ∷ AskBatch (StopLayer (layer 2) ∷ []) ∷ [] }
{}

/// What ends a connection: BYE and KILL, but not while a batch is open.
pub fn ends()
    ensures bye { gives (line "" ∷ line "BYE" ∷ line "INFO" ∷ []) ≡ Skip ∷ EndConnection ∷ [] }
    ensures kill { gives (line "INFO" ∷ line "KILL" ∷ line "INFO" ∷ []) ≡ Ask Info ∷ KillServer ∷ [] }
    ensures in_a_batch { gives (line "BEGIN" ∷ line "BYE" ∷ line "KILL" ∷ [])
        ≡ Local (Done name.Begin) ∷ Local (Refused 403 name.Bye) ∷ Local (Refused 403 name.Kill) ∷ [] }
{}

/// Lines that were given up because memory ran out.
pub fn given_up()
    ensures command { gives_without (1 ∷ []) (line "BEGIN" ∷ line "STOP 1-2" ∷ line "COMMIT" ∷ [])
        ≡ Local (Done name.Begin) ∷ Local NoMemory ∷ Local (Done name.Commit) ∷ [] }
    ensures commit { gives_without (2 ∷ []) (line "BEGIN" ∷ line "STOP 1-2" ∷ line "COMMIT" ∷ line "COMMIT" ∷ [])
        ≡ Local (Done name.Begin) ∷ Local (Done name.Stop) ∷ Local NoMemory ∷ AskBatch (StopLayer (layer 2) ∷ []) ∷ [] }
{}

/// REQ and a token before a command do not change the command. If the token or the command is missing, or the token is
/// malformed, REQ is refused. After a token, REQ is not the name of a command.
pub fn requests()
    ensures asked { gives (line "REQ a1 STOP 1-2" ∷ line "req b INFO" ∷ line "REQ f BYE" ∷ [])
        ≡ Ask (StopLayer (layer 2)) ∷ Ask Info ∷ EndConnection ∷ [] }
    ensures refused { gives (line "REQ" ∷ line "REQ c" ∷ line "REQ \"x y\" INFO" ∷ line "REQ d PAUSE 1-x" ∷ line "REQ d REQ e INFO" ∷ [])
        ≡ Local (Refused 402 name.Req) ∷ Local (Refused 402 name.Req) ∷ Local (Refused 403 name.Req) ∷ Local (Refused 403 name.Pause) ∷ Local (Unknown (codes "REQ d REQ e INFO")) ∷ [] }
    ensures batch { gives (line "REQ 1 BEGIN" ∷ line "REQ 2 STOP 1-2" ∷ line "REQ 3 COMMIT" ∷ [])
        ≡ Local (Done name.Begin) ∷ Local (Done name.Stop) ∷ AskBatch (StopLayer (layer 2) ∷ []) ∷ [] }
{}

/// The word for which a line is refused, counted from 0 over all words of the line.
pub fn wrong_words()
    ensures named { wrong_words (line "PAUSE 1-x" ∷ line "STOP 1 2" ∷ line "REQ d PAUSE 1-x" ∷ line "REQ \"x y\" INFO" ∷ [])
        ≡ Some 1 ∷ Some 2 ∷ Some 3 ∷ Some 1 ∷ [] }
    ensures none { wrong_words (line "FROB 1" ∷ line "PAUSE" ∷ line "PAUSE 2-0" ∷ line "PLAY 1-0 NONE" ∷ line "INFO" ∷ line "" ∷ TooLong ∷ [])
        ≡ None ∷ None ∷ None ∷ None ∷ None ∷ None ∷ None ∷ [] }
{}

//! Replies to a client.
ghost use Rattle.std.specs.Prelude.{◌≡◌, IsTrue};
ghost use Rattle.std.specs.Str.{chars};
ghost use Rattle.play_types.specs.Commands.{answer_reply};
ghost use Rattle.play_types.specs.Replies.{is_out_of_memory, reply_code};
ghost use Rattle.play_types.specs.Words.{are_capitals, name_of, name_text};

use crate::answer::{Answer, Micros, StatusList};
use crate::text::Text;
use crate::word::is_word;

/// The name that a command begins with, or `REQ`, which puts a token before a command.
#[derive(Clone, Copy, Debug, PartialEq, Eq)]
pub enum Name {
    LoadBg,
    Load,
    Play,
    Pause,
    Resume,
    Stop,
    Clear,
    Swap,
    Mixer,
    Add,
    Remove,
    Begin,
    Commit,
    Discard,
    Info,
    Cls,
    Version,
    Bye,
    Kill,
    Req,
}

/// The names of all commands.
const NAMES: [Name; 20] = [
    Name::LoadBg,
    Name::Load,
    Name::Play,
    Name::Pause,
    Name::Resume,
    Name::Stop,
    Name::Clear,
    Name::Swap,
    Name::Mixer,
    Name::Add,
    Name::Remove,
    Name::Begin,
    Name::Commit,
    Name::Discard,
    Name::Info,
    Name::Cls,
    Name::Version,
    Name::Bye,
    Name::Kill,
    Name::Req,
];

impl Name {
    /// Returns the name in capitals, as replies print it.
    pub fn as_str(self) -> &'static str
        ensures text { result.now ≡ name_text self }
        ensures capitals { IsTrue (are_capitals result.now) }
    {
        match self {
            Name::LoadBg => "LOADBG",
            Name::Load => "LOAD",
            Name::Play => "PLAY",
            Name::Pause => "PAUSE",
            Name::Resume => "RESUME",
            Name::Stop => "STOP",
            Name::Clear => "CLEAR",
            Name::Swap => "SWAP",
            Name::Mixer => "MIXER",
            Name::Add => "ADD",
            Name::Remove => "REMOVE",
            Name::Begin => "BEGIN",
            Name::Commit => "COMMIT",
            Name::Discard => "DISCARD",
            Name::Info => "INFO",
            Name::Cls => "CLS",
            Name::Version => "VERSION",
            Name::Bye => "BYE",
            Name::Kill => "KILL",
            Name::Req => "REQ",
        }
    }

    /// Returns the command that a word names, ignoring the case of ASCII letters.
    #[tactic(auto, unfolding(crate::specs::Words::name_of))]
    pub fn read(word: &str) -> Option<Name>
        ensures { result ≡ name_of (chars word.now) }
    {
        NAMES
            .iter()
            .copied()
            .find(|name| is_word(word, name.as_str()))
    }
}

/// The code of a reply to a line that is no command.
pub const UNKNOWN_COMMAND: u16 = 400;

/// The code of a refusal because the channel is not configured or not a channel at all.
pub const WRONG_CHANNEL: u16 = 401;

/// The code of a refusal for a word that is missing.
pub const MISSING_WORD: u16 = 402;

/// The code of a refusal for a word that is wrong, or by the stage.
pub const ILLEGAL_WORD: u16 = 403;

/// The code of a refusal for a clip that is not in the media table.
pub const CLIP_NOT_FOUND: u16 = 404;

/// The code of a reply to a line that was given up because memory ran out.
pub const LINE_GIVEN_UP: u16 = 500;

/// The code of a refusal because memory ran out.
pub const OUT_OF_MEMORY: u16 = 501;

/// The code of a refusal for a clip whose file is unreadable.
pub const CLIP_UNREADABLE: u16 = 502;

/// The code of a refusal because the journal is full.
pub const JOURNAL_FULL: u16 = 503;

/// The reply to a line of a client.
#[derive(Debug, Drop)]
pub enum Reply {
    /// The command was done, or waits in a batch: 202.
    Done(Name),
    /// The mixer values that were asked for: 201.
    Value(Micros),
    /// The status of each channel: 200.
    Info(StatusList),
    /// The names of the media table: 200.
    Cls,
    /// The version of the server: 201.
    Version,
    /// The line is no command: 400, and its text, which is empty if the line was too long or not UTF-8.
    Unknown(Text),
    /// The command was refused, with one of these codes: [`WRONG_CHANNEL`], [`MISSING_WORD`], [`ILLEGAL_WORD`],
    /// [`CLIP_NOT_FOUND`], [`OUT_OF_MEMORY`], [`CLIP_UNREADABLE`] or [`JOURNAL_FULL`].
    Refused(u16, Name),
    /// The line was given up because memory ran out: 500.
    NoMemory,
}

impl Reply {
    /// Returns the reply for the stage's answer to a command of this name.
    pub fn to_answer(name: Name, answer: Answer) -> Reply
        ensures { result ≡ answer_reply name answer }
    {
        match answer {
            Answer::Done => Reply::Done(name),
            Answer::Value(micros) => Reply::Value(micros),
            Answer::Info(statuses) => Reply::Info(statuses),
            Answer::Refused => Reply::Refused(ILLEGAL_WORD, name),
        }
    }

    /// Returns the code with which the reply begins: 200 to 202 if the line was done, 400 to 404 if the client is at
    /// fault, and 500 to 503 if the server is.
    pub fn code(&self) -> u16
        ensures { result ≡ reply_code self.now }
    {
        match self {
            Reply::Done(_) => 202,
            Reply::Value(_) | Reply::Version => 201,
            Reply::Info(_) | Reply::Cls => 200,
            Reply::Unknown(_) => UNKNOWN_COMMAND,
            Reply::Refused(code, _) => *code,
            Reply::NoMemory => LINE_GIVEN_UP,
        }
    }

    /// Returns whether the reply reports that memory ran out, for the line or for the command.
    pub fn is_out_of_memory(&self) -> bool
        ensures { result ≡ is_out_of_memory self.now }
    {
        matches!(self.code(), LINE_GIVEN_UP | OUT_OF_MEMORY)
    }
}

//! What the words of a client's line ask for.

use crate::command::Cmd;
use crate::reply::Name;
use std::error::Error;
use std::fmt;

/// What the words of a line ask for.
#[derive(Clone, Copy, Debug, PartialEq, Eq)]
pub enum Parsed {
    /// A command of the stage.
    Stage(Cmd),
    /// Opens a batch.
    Begin,
    /// Makes the open batch one event.
    Commit,
    /// Drops the open batch.
    Discard,
    /// Asks for the names of the media table.
    Cls,
    /// Asks for the version of the server.
    Version,
    /// Ends the connection.
    Bye,
    /// Ends the server.
    Kill,
}

/// Why a line is refused.
#[derive(Clone, Copy, Debug, PartialEq, Eq)]
pub enum Refusal {
    /// The first word is no command's name: 400.
    Unknown,
    /// The channel is not configured: 401.
    Channel(Name),
    /// The line ends where a further word is required: 402.
    Missing(Name),
    /// The word at this position, counted from 0, is wrong, repeated or surplus: 403.
    Illegal(Name, usize),
    /// There is no clip of this name: 404.
    NotFound(Name),
    /// The clip is unreadable: 502.
    Unreadable(Name),
}

impl fmt::Display for Refusal {
    fn fmt<W: fmt::Write>(&self, f: &mut fmt::Formatter<W>) -> fmt::Result {
        match self {
            Refusal::Unknown => write!(f, "no such command"),
            Refusal::Channel(name) => write!(f, "{}: no such channel", name.as_str()),
            Refusal::Missing(name) => write!(f, "{}: a word is missing", name.as_str()),
            Refusal::Illegal(name, at) => write!(f, "{}: word {at} is wrong", name.as_str()),
            Refusal::NotFound(name) => write!(f, "{}: no such clip", name.as_str()),
            Refusal::Unreadable(name) => write!(f, "{}: the clip cannot be read", name.as_str()),
        }
    }
}

impl Error for Refusal {}

//! The meaning and the token of a line of a connection.
ghost use Rattle.std.specs.Prelude.{◌≡◌, ◌<◌, IfOk, None, Ok};
ghost use Rattle.std.specs.Str.{chars};
ghost use Rattle.amcp_text.specs.Reader.{line_view};
ghost use Rattle.amcp_text.specs.Tokens.{words_of};
ghost use Rattle.history_model.specs.sessions.Line.{Wrong, line_meaning, meaning_of_words, refusal_reply};
ghost use Rattle.history_model.specs.sessions.Request.{line_token, token_among, token_of_words};
ghost use Rattle.play_types.specs.declared.reply.Reply.TheVariants.{Unknown};
ghost use Rattle.play_session.specs.inner.Meaning.{meaning_view};

use crate::request::{requested, token_among};
use amcp_text::{LineEvent, ReqToken, TokenFault, WordList, tokens};
use play_types::{
    CLIP_NOT_FOUND, CLIP_UNREADABLE, Config, ILLEGAL_WORD, MISSING_WORD, MediaNames, Parsed,
    Refusal, Reply, Text, WRONG_CHANNEL,
};
use std::alloc::{AllocError, Global};

/// What a line means.
#[derive(Debug, Drop)]
pub enum Meaning {
    /// The line has no word.
    Blank,
    /// The line is refused with this reply.
    Wrong(Reply),
    /// What the words of the line ask for.
    Asks(Parsed),
}

/// A line that was read: the token that it has, if it has one, and what it means.
#[derive(Debug, Drop)]
pub struct ReadLine {
    pub token: Option<ReqToken>,
    pub meaning: Meaning,
}

/// Reads a line with this configuration and these clips. A line that is too long, or is not UTF-8, is refused without its
/// text, and has no token.
#[tactic(auto, unfolding(history_model::specs::sessions::Line::line_meaning, history_model::specs::sessions::Request::line_token))]
pub fn read_line(
    alloc: Global,
    config: &Config,
    media: &MediaNames,
    line: LineEvent<'_>,
) -> Result<ReadLine, AllocError>
    ensures meaning { IfOk result
        (λ read. meaning_view read.meaning ≡ line_meaning config.now media.now (line_view line.entry)) }
    ensures token { IfOk result (λ read. read.token ≡ line_token (line_view line.entry)) }
{
    match line {
        LineEvent::Line(text) => read_text(alloc, config, media, text),
        LineEvent::TooLong => unknown(alloc, ""),
        LineEvent::NotUtf8 => unknown(alloc, ""),
    }
}

/// Reads a line of text.
fn read_text(
    alloc: Global,
    config: &Config,
    media: &MediaNames,
    line: &str,
) -> Result<ReadLine, AllocError>
    ensures meaning { IfOk result (λ read. meaning_view read.meaning
        ≡ meaning_of_words config.now media.now (chars line.now) (words_of (chars line.now))) }
    ensures token { IfOk result (λ read. read.token ≡ token_of_words (words_of (chars line.now))) }
{
    match tokens(alloc, line) {
        Ok(words) => read_words(alloc, config, media, line, words),
        Err(TokenFault::OutOfMemory) => Err(AllocError),
        Err(TokenFault::OpenQuote { .. } | TokenFault::BadEscape { .. }) => unknown(alloc, line),
    }
}

/// Reads a line that has these words.
fn read_words(
    alloc: Global,
    config: &Config,
    media: &MediaNames,
    line: &str,
    mut words: WordList,
) -> Result<ReadLine, AllocError>
    ensures meaning { IfOk result (λ read. meaning_view read.meaning
        ≡ meaning_of_words config.now media.now (chars line.now) (Ok words)) }
    ensures token { IfOk result (λ read. read.token ≡ token_among words) }
{
    let token = token_among(&words);
    if words.is_empty() {
        return Ok(ReadLine {
            token,
            meaning: Meaning::Blank,
        });
    }
    let meaning = match requested(&mut words, token, config, media) {
        Ok(asked) => Meaning::Asks(asked),
        Err(reason) => Meaning::Wrong(reply_to(alloc, line, reason)?),
    };
    Ok(ReadLine { token, meaning })
}

/// Returns a line that cannot be split into words: it is refused as unknown, and has no token.
fn unknown(alloc: Global, line: &str) -> Result<ReadLine, AllocError>
    ensures meaning { IfOk result (λ read. meaning_view read.meaning ≡ Wrong (Unknown (chars line.now))) }
    ensures token { IfOk result (λ read. read.token ≡ None) }
{
    Ok(ReadLine {
        token: None,
        meaning: Meaning::Wrong(reply_to(alloc, line, Refusal::Unknown)?),
    })
}

/// Returns the reply to a line that is refused for this reason.
fn reply_to(alloc: Global, line: &str, reason: Refusal) -> Result<Reply, AllocError>
    ensures { IfOk result (λ reply. reply ≡ refusal_reply (chars line.now) reason) }
{
    match reason {
        Refusal::Unknown => Ok(Reply::Unknown(Text::copy(alloc, line)?)),
        Refusal::Channel(name) => Ok(Reply::Refused(WRONG_CHANNEL, name)),
        Refusal::Missing(name) => Ok(Reply::Refused(MISSING_WORD, name)),
        Refusal::Illegal(name, _) => Ok(Reply::Refused(ILLEGAL_WORD, name)),
        Refusal::NotFound(name) => Ok(Reply::Refused(CLIP_NOT_FOUND, name)),
        Refusal::Unreadable(name) => Ok(Reply::Refused(CLIP_UNREADABLE, name)),
    }
}

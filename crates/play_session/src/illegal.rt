//! The word for which a line is refused, for messages to the author of the line.
ghost use Rattle.std.specs.Prelude.{◌≡◌, ◌<◌, IfOk, length};
ghost use Rattle.std.specs.Str.{chars};
ghost use Rattle.amcp_text.specs.Lines.{line_of_text};
ghost use Rattle.amcp_text.specs.Tokens.{words_of};
ghost use Rattle.play_session.specs.Illegal.{illegal_word, named_by, wrong_in, wrong_word, wrong_word_of};

use crate::request::{drop_token, token_among};
use amcp_text::{LineEvent, TokenFault, WordList, tokens};
use cmd_parse::parse;
use play_types::{Config, MediaNames, Parsed, Refusal};
use std::alloc::{AllocError, Global};

/// Returns the position of the word for which a line is refused with 403, counted from 0 over all words of the line, including
/// REQ and the token. Returns `None` if the line is not refused for a word. `text` is the line without its line end.
///
/// A batch can refuse a whole command with 403. Then there is no such word.
pub fn illegal_word(
    alloc: Global,
    config: &Config,
    media: &MediaNames,
    text: &[u8],
) -> Result<Option<usize>, AllocError>
    ensures { IfOk result (λ at. at ≡ illegal_word config.now media.now (line_of_text text.now)) }
{
    match LineEvent::of(text) {
        LineEvent::Line(line) => wrong_word_of(alloc, config, media, line),
        LineEvent::TooLong | LineEvent::NotUtf8 => Ok(None),
    }
}

/// As [`illegal_word`], for a line of text.
fn wrong_word_of(
    alloc: Global,
    config: &Config,
    media: &MediaNames,
    line: &str,
) -> Result<Option<usize>, AllocError>
    ensures { IfOk result (λ at. at ≡ wrong_word_of config.now media.now (words_of (chars line.now))) }
{
    match tokens(alloc, line) {
        Ok(words) if words.is_empty() => Ok(None),
        Ok(words) => Ok(wrong_word(words, config, media)),
        Err(TokenFault::OutOfMemory) => Err(AllocError),
        Err(TokenFault::OpenQuote { .. } | TokenFault::BadEscape { .. }) => Ok(None),
    }
}

/// As [`illegal_word`], for the words of a line.
fn wrong_word(mut words: WordList, config: &Config, media: &MediaNames) -> Option<usize>
    requires { 0 < length words }
    ensures { result ≡ wrong_word config.now media.now words }
{
    let count = words.len();
    let token = token_among(&words);
    match drop_token(&mut words, token) {
        Ok(()) => {
            let at = wrong_in(parse(&words, config, media))?;
            if at < words.len() {
                Some(count - words.len() + at)
            } else {
                None
            }
        }
        Err(reason) => named_by(reason),
    }
}

/// Returns the position of the illegal word, if the line was refused for a word.
fn wrong_in(asked: Result<Parsed, Refusal>) -> Option<usize>
    ensures { result ≡ wrong_in asked }
{
    match asked {
        Ok(_) => None,
        Err(reason) => named_by(reason),
    }
}

/// Returns the position that a refusal names.
fn named_by(reason: Refusal) -> Option<usize>
    ensures { result ≡ named_by reason }
{
    match reason {
        Refusal::Illegal(_, at) => Some(at),
        Refusal::Unknown
        | Refusal::Channel(_)
        | Refusal::Missing(_)
        | Refusal::NotFound(_)
        | Refusal::Unreadable(_) => None,
    }
}

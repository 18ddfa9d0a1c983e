//! REQ and a token before a command.
ghost use Rattle.std.specs.Prelude.{◌≡◌, ◌<◌, IfErr, OnOk, Ok, Err, length};
ghost use Rattle.history_model.specs.sessions.Request.{requested, token_among, without_token};
ghost use Rattle.play_session.specs.inner.Meaning.{begins_with_req};

use amcp_text::{ReqToken, WordList};
use cmd_parse::parse;
use play_types::{Config, MediaNames, Name, Parsed, Refusal, is_word};

/// Returns the token of a line's words: the second word, if the first is REQ and the second is a token.
pub fn token_among(words: &WordList) -> Option<ReqToken>
    ensures { result ≡ token_among words.now }
{
    if !begins_with_req(words) {
        return None;
    }
    ReqToken::read(words.get(1)?)
}

/// Returns what the words of a line with this token ask for, or why they are refused. REQ and the token are dropped first. The
/// position in `Illegal` counts the words that are left.
pub fn requested(
    words: &mut WordList,
    token: Option<ReqToken>,
    config: &Config,
    media: &MediaNames,
) -> Result<Parsed, Refusal>
    requires some { 0 < length words.old }
    requires token { token ≡ token_among words.old }
    ensures { result ≡ requested config.now media.now words.old }
{
    drop_token(words, token)?;
    parse(words, config, media)
}

/// Drops REQ and the token from the words of a line, if REQ comes first. If the token or the command is missing, or the second
/// word is no token, REQ is refused.
pub fn drop_token(words: &mut WordList, token: Option<ReqToken>) -> Result<(), Refusal>
    requires some { 0 < length words.old }
    requires token { token ≡ token_among words.old }
    ensures ok { OnOk result (without_token words.old ≡ Ok words.new) }
    ensures err { IfErr result (λ reason. without_token words.old ≡ Err reason) }
    ensures some { OnOk result (0 < length words.new) }
{
    if !begins_with_req(words) {
        return Ok(());
    }
    if words.len() < 2 {
        return Err(Refusal::Missing(Name::Req));
    }
    if token.is_none() {
        return Err(Refusal::Illegal(Name::Req, 1));
    }
    if words.len() < 3 {
        return Err(Refusal::Missing(Name::Req));
    }
    words.drop_two();
    Ok(())
}

/// Returns whether the first word is REQ, in any case of its letters.
fn begins_with_req(words: &WordList) -> bool
    ensures { result ≡ begins_with_req words.now }
{
    words
        .get(0)
        .is_some_and(|word| is_word(word, Name::Req.as_str()))
}

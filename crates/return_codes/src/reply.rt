//! The lines of a reply.
ghost use Rattle.std.specs.Prelude.{◌≡◌, ◌∷◌, ◌++◌, [], length, take, map, option_map, codes};
ghost use Rattle.std.specs.List.{flat_map};
ghost use Rattle.play_outside.specs.Sink.{Sends};
ghost use Rattle.play_outside.specs.Gathered.{Adds};
ghost use Rattle.history_model.specs.text.Replies.{IsReplyTo, refusal_word, code_line, channel_lines, media_line, wrapped, answer_lines, reply_lines, reply_token, reply_bytes};
ghost use Rattle.return_codes.specs.inner.Style.{styled, styled_lines};

use crate::line::{GatheredText, LineStyle};
use crate::media::add_names;
use crate::status::add_statuses;
use crate::value::add_values;
use amcp_text::ReqToken;
use itoa::Buffer;
use play_outside::{Sent, Sink};
use play_types::{ChannelList, Config, MediaNames, Name, Reply, StatusList};

/// Writes the lines of the reply to a line with this token, or without one, each ended by CR LF. Lines of at most 4,096 bytes
/// together are one write.
///
/// The first line begins with `RES `, the token and a space, if there is a token. A `NoMemory` has none.
///
/// An `Info` has a status for each channel of the configuration, and a `Refused` has one of the codes 401 to 404 and 501
/// to 503. The reply to CLS lists the names of `media`. The result is `Failed` only if `to` failed, and then a prefix of
/// the lines was written.
pub fn send_reply<K: Sink>(
    reply: &Reply,
    token: Option<&ReqToken>,
    config: &Config,
    media: &MediaNames,
    to: &mut K,
) -> Sent
    requires { IsReplyTo config.now reply.now }
    ensures { Sends result
        (reply_bytes config.now media.now (option_map (λ token. token.now) token.entry) reply.now)
        (K.state to.old) (K.state to.new) }
{
    send_reply_lines(reply, token, config, media, &[], b"\r\n", to)
}

/// Writes the lines of the reply to a line with this token, or without one, each with the parts of `before` before it and ended
/// by `after`.
///
/// The reply is one that `send_reply` takes, and the result is `Failed` only if `to` failed.
pub fn send_reply_lines<'a, K: Sink>(
    reply: &Reply,
    token: Option<&ReqToken>,
    config: &Config,
    media: &MediaNames,
    before: &'a [&'a [u8]],
    after: &'a [u8],
    to: &mut K,
) -> Sent
    requires { IsReplyTo config.now reply.now }
    ensures { Sends result
        (flat_map (wrapped (flat_map (λ part. part.now) before.now) after.now)
        (answer_lines config.now media.now (option_map (λ token. token.now) token.entry) reply.now))
        (K.state to.old) (K.state to.new) }
{
    let style = LineStyle {
        before,
        token: reply_token(reply, token),
        after,
    };
    let mut text = GatheredText::new();
    add_reply(reply, config, media, &style, &mut text, to)?;
    text.finish(to)
}

/// Returns the token of the reply to a line with this token: `NoMemory` has none.
fn reply_token<'a>(reply: &Reply, token: Option<&'a ReqToken>) -> Option<&'a ReqToken>
    ensures { option_map (λ token. token.now) result
        ≡ reply_token (option_map (λ token. token.now) token.entry) reply.now }
{
    match reply {
        Reply::Done(_)
        | Reply::Value(_)
        | Reply::Info(_)
        | Reply::Cls
        | Reply::Version
        | Reply::Unknown(_)
        | Reply::Refused(_, _) => token,
        Reply::NoMemory => None,
    }
}

/// Adds the lines of a reply.
fn add_reply<K: Sink>(
    reply: &Reply,
    config: &Config,
    media: &MediaNames,
    style: &LineStyle,
    text: &mut GatheredText,
    to: &mut K,
) -> Sent
    requires { IsReplyTo config.now reply.now }
    ensures { Adds result
        (text.old ++ styled_lines style.now (reply_lines config.now media.now reply.now))
        text.new (K.state to.old) (K.state to.new) }
{
    match reply {
        Reply::Done(name) => add_code(202, *name, "OK", style, text, to),
        Reply::Value(micros) => add_values(*micros, style, text, to),
        Reply::Info(statuses) => add_info(config.channels(), *statuses, style, text, to),
        Reply::Cls => add_cls(media, style, text, to),
        Reply::Version => style.add_two_lines(b"201 VERSION OK", &[b"2.0 PLAYD"], text, to),
        Reply::Unknown(line) => {
            style.add_two_lines(b"400 ERROR", &[line.as_str().as_bytes()], text, to)
        }
        Reply::Refused(code, name) => add_code(*code, *name, refusal(*code), style, text, to),
        Reply::NoMemory => style.add_line(&[b"500 FAILED"], text, to),
    }
}

/// Adds the line of a code, the name of a command, and its result: `OK`, `ERROR` or `FAILED`.
fn add_code<K: Sink>(
    code: u16,
    name: Name,
    word: &'static str,
    style: &LineStyle,
    text: &mut GatheredText,
    to: &mut K,
) -> Sent
    ensures { Adds result (text.old ++ styled style.now (code_line code name word.now)) text.new (K.state to.old) (K.state to.new) }
{
    style.add_line(
        &[
            Buffer::new().format(code).as_bytes(),
            b" ",
            name.as_str().as_bytes(),
            b" ",
            word.as_bytes(),
        ],
        text,
        to,
    )
}

/// Adds the reply to INFO: its first line, the status of each channel, and an empty line.
fn add_info<K: Sink>(
    channels: &ChannelList,
    statuses: StatusList,
    style: &LineStyle,
    text: &mut GatheredText,
    to: &mut K,
) -> Sent
    requires { statuses.count ≡ length channels.now }
    ensures { Adds result
        (text.old ++ styled_lines style.now (codes "200 INFO OK" ∷ channel_lines channels.now (take statuses.count statuses.channels) ++ [] ∷ []))
        text.new (K.state to.old) (K.state to.new) }
{
    let later = style.later();
    style.add_line(&[b"200 INFO OK"], text, to)?;
    add_statuses(channels, statuses, &later, text, to)?;
    later.add_line(&[], text, to)
}

/// Adds the reply to CLS: its first line, the names of the media table, and an empty line.
fn add_cls<K: Sink>(
    media: &MediaNames,
    style: &LineStyle,
    text: &mut GatheredText,
    to: &mut K,
) -> Sent
    ensures { Adds result
        (text.old ++ styled_lines style.now (codes "200 CLS OK" ∷ map media_line media.now ++ [] ∷ []))
        text.new (K.state to.old) (K.state to.new) }
{
    let later = style.later();
    style.add_line(&[b"200 CLS OK"], text, to)?;
    add_names(media, &later, text, to)?;
    later.add_line(&[], text, to)
}

/// Returns the word for a command that was refused with this code: `ERROR` below 500, if the client is at fault, and
/// from 500 on `FAILED`.
pub fn refusal(code: u16) -> &'static str
    ensures { result.now ≡ refusal_word code }
{
    if code < 500 { "ERROR" } else { "FAILED" }
}

//! Replies to the connections of a script.
ghost use Rattle.std.specs.Prelude.{option_map};
ghost use Rattle.history_model.specs.text.Replies.{IsReplyTo, answer_lines};
ghost use Rattle.history_model.specs.scripts.Output.{tagged_lines};
ghost use Rattle.play_outside.specs.Sink.{Sends};

use amcp_text::ReqToken;
use itoa::Buffer;
use play_outside::{Sent, Sink};
use play_types::{Reply, Tag, UNKNOWN_COMMAND};
use return_codes::{refusal, send_reply_lines};
use server_setup::ServerSetup;
use std::fmt;

/// Writes the lines of a reply, with the token if there is one, each after the tag of its connection.
pub fn send_tagged_reply<K: Sink>(
    tag: Tag,
    reply: &Reply,
    token: Option<&ReqToken>,
    setup: &ServerSetup,
    out: &mut K,
) -> Sent
    requires { IsReplyTo setup.now.config reply.now }
    ensures { Sends result
        (tagged_lines tag (answer_lines setup.now.config setup.now.names (option_map (λ token. token.now) token.entry) reply.now))
        (K.state out.old) (K.state out.new) }
{
    send_reply_lines(
        reply,
        token,
        &setup.config,
        &setup.names,
        &[
            Buffer::new().format(tag.worker).as_bytes(),
            b".",
            Buffer::new().format(tag.session).as_bytes(),
            b" ",
        ],
        b"\n",
        out,
    )
}

/// Returns whether a reply refuses its line: its code is 400 or more.
pub fn is_refusal(reply: &Reply) -> bool {
    reply.code() >= UNKNOWN_COMMAND
}

/// Displays the first line of a reply that refuses a line, without a token. Any other reply is displayed as an empty text.
#[derive(Clone, Copy)]
pub struct RefusalLine<'a>(pub &'a Reply);

impl fmt::Display for RefusalLine<'_> {
    fn fmt<W: fmt::Write>(&self, f: &mut fmt::Formatter<W>) -> fmt::Result {
        match self.0 {
            Reply::Refused(code, name) => {
                write!(f, "{code} {} {}", name.as_str(), refusal(*code))
            }
            Reply::Unknown(_) => f.write_str("400 ERROR"),
            Reply::NoMemory => f.write_str("500 FAILED"),
            Reply::Done(_) | Reply::Value(_) | Reply::Info(_) | Reply::Cls | Reply::Version => {
                Ok(())
            }
        }
    }
}

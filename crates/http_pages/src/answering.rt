//! Requests from a stream, and the answers to another.
ghost use Rattle.std.specs.Prelude.{◌≡◌, OnOk};
ghost use Rattle.http_server.specs.History.{History, IsDone};
ghost use Rattle.http_pages.specs.Conversation.{IsConversation, page_config};

use crate::pages::Pages;
use crate::site::Site;
use http_server::{Config, Connection, serve};
use http1::Limits;
use std::alloc::Global;
use std::hash::RandomState;
use std::io::{self, Read, Write};

/// The most bytes of the head of a request.
pub const MAX_HEAD: usize = 8_192;

/// The most bytes of the body of a request, which is read and dropped.
pub const MAX_BODY: usize = 8_192;

/// While more bytes than this wait to be sent, no request is read.
pub const MAX_PENDING: usize = 65_536;

/// Returns the limits of a connection.
fn limits() -> Config
    ensures { result ≡ page_config }
{
    Config {
        limits: Limits {
            max_head_len: MAX_HEAD,
            max_extensions_len: MAX_HEAD,
            max_trailers_len: MAX_HEAD,
        },
        max_body_len: MAX_BODY,
        max_pending: MAX_PENDING,
        read_size: MAX_HEAD,
    }
}

/// Reads requests and writes their answers, in order, until the client or an answer ends the connection. The error is that of a
/// read or a write.
pub fn answer_requests<P: Pages, R: Read, W: Write>(
    keys: RandomState,
    site: &mut Site<P>,
    reader: &mut R,
    writer: &mut W,
) -> io::Result<()>
    ensures answered { (h : History) × OnOk result (IsDone h)
        × IsConversation (P.shows site.old.pages) (R.remaining reader.old) (R.remaining reader.new)
        (W.contents writer.old) (W.contents writer.new) h }
    ensures same { site.new ≡ site.old }
{
    let mut connection = Connection::new(site.alloc, keys, limits());
    serve(&mut connection, site, reader, writer)
}

//! Names in quotation marks.
ghost use Rattle.std.specs.Prelude.{◌++◌, encode_utf8_all, chars};
ghost use Rattle.std.specs.List.{flat_map};
ghost use Rattle.amcp_text.specs.Escapes.{escaped, quoted};
ghost use Rattle.play_outside.specs.Gathered.{Adds};

use amcp_text::escape_of;
use play_outside::{Gather, Sent, Sink};

/// Adds a name in quotation marks to a text that is gathered: a backslash is put before each quotation mark and each
/// backslash of the name, and a line feed becomes `\n`.
pub fn add_quoted<const ROOM: usize, K: Sink>(
    name: &str,
    text: &mut Gather<ROOM>,
    to: &mut K,
) -> Sent
    ensures { Adds result (text.old ++ encode_utf8_all (quoted (chars name.now))) text.new (K.state to.old) (K.state to.new) }
{
    text.add(b"\"", to)?;
    add_escaped(name.as_bytes(), text, to)?;
    text.add(b"\"", to)
}

/// Adds the bytes of a name, and in place of each byte that has an escape its escape.
fn add_escaped<const ROOM: usize, K: Sink>(name: &[u8], text: &mut Gather<ROOM>, to: &mut K) -> Sent
    ensures { Adds result (text.old ++ flat_map escaped name.now) text.new (K.state to.old) (K.state to.new) }
{
    let mut added = 0;
    for (at, byte) in name.iter().enumerate() {
        if let Some(letter) = escape_of(*byte) {
            text.add_parts(&[&name[added..at], b"\\", &[letter]], to)?;
            added = at + 1;
        }
    }
    text.add(&name[added..], to)
}

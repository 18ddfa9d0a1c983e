//! Words of a line, separated by one space.
ghost use Rattle.std.specs.Prelude.{◌≡◌, ◌==◌, option_map, position};
ghost use Rattle.history_model.specs.text.Parts.{parts_at};

/// Returns the bytes before and the bytes after the first `byte` of a text, if there is one.
pub fn parts_at(byte: u8, text: &[u8]) -> Option<(&[u8], &[u8])>
    ensures { option_map (λ parts. (parts.0.now, parts.1.now)) result ≡ parts_at byte text.now }
{
    let at = place_of(byte, text)?;
    Some((&text[..at], &text[at + 1..]))
}

/// Returns the index of the first `byte` of a text.
fn place_of(byte: u8, text: &[u8]) -> Option<usize>
    ensures { result ≡ position (λ c. c == byte) text.now }
{
    text.iter().position(|c| *c == byte)
}

//! Writing a text in quotation marks.
ghost use Rattle.std.specs.Prelude.{◌≡◌, ◌∷◌, ◌++◌, [], codes, IfNone, IfSome};
ghost use Rattle.amcp_text.specs.Escapes.{escaped};

/// Returns the second byte of the escape of a quotation mark, a backslash or a new line, whose first byte is a backslash.
/// Another byte has no escape and is written as it is, also if it is one of several bytes of a character.
pub fn escape_of(byte: u8) -> Option<u8>
    ensures none { IfNone result (escaped byte ≡ byte ∷ []) }
    ensures some { IfSome result (λ letter. escaped byte ≡ codes "\\" ++ letter ∷ []) }
{
    match byte {
        b'"' | b'\\' => Some(byte),
        b'\n' => Some(b'n'),
        _ => None,
    }
}

//! Laws of the definitions in `specs/`. Each is the contract of a function that does nothing.
ghost use Rattle.std.specs.Prelude.{◌≡◌, ℕ, ◌<◌, ◌≤◌, List, [], ◌∷◌, ◌++◌, Some, None, false, length, flat_map, encode_utf8_all};
ghost use Rattle.std.specs.List.{list_any};
ghost use Rattle.std.specs.Str.{IsUtf8, chars};
ghost use Rattle.amcp_text.specs.Escapes.{escaped, quoted};
ghost use Rattle.amcp_text.specs.Lines.{IsEnded, Line, Text, TooLong, is_line_end, line_of_text, lines_of};
ghost use Rattle.amcp_text.specs.Reader.{HasTold, IsLineOf, line_view};
ghost use Rattle.amcp_text.specs.declared.line_reader.LineEvent.{LineEvent};

/// However a stream is cut into pieces, a reader returns its lines: those that it has returned are the first lines of the
/// stream, and if no line is held, they are all lines of the pieces so far.
///
/// The clauses are the steps of a caller: the reader takes bytes, or returns a line and drops it.
pub fn lines_of_pieces()
    ensures before { HasTold [] [] [] }
    ensures piece { (piece taken bytes : List ℕ) (lines : List Line) → HasTold taken lines bytes → HasTold (taken ++ piece) lines (bytes ++ piece) }
    ensures line { (event : LineEvent) (taken bytes : List ℕ) (lines : List Line) → HasTold taken lines bytes → IsLineOf (Some event) bytes
        → HasTold taken (lines ++ line_view event ∷ []) [] }
    ensures all { (taken bytes : List ℕ) (lines : List Line) → HasTold taken lines bytes → IsLineOf None bytes → lines_of taken ≡ lines }
{}

/// If a stream is cut at the end of a line, its lines are those of the two parts.
pub fn lines_of_two_parts()
    ensures lines { (whole rest : List ℕ) → IsEnded whole → lines_of (whole ++ rest) ≡ lines_of whole ++ lines_of rest }
    ensures ended { (whole rest : List ℕ) → IsEnded whole → IsEnded rest → IsEnded (whole ++ rest) }
{}

/// A text with CR and LF after it is the first line of a stream, and neither of the two is part of it.
pub fn first_line()
    ensures { (text rest : List ℕ) → list_any is_line_end text ≡ false
        → lines_of (text ++ 13 ∷ 10 ∷ rest) ≡ line_of_text text ∷ lines_of rest }
{}

/// A text of 4096 bytes is a line, and a longer one is too long.
pub fn longest_line()
    ensures line { (text : List ℕ) → length text ≤ 4096 → IsUtf8 text → line_of_text text ≡ Text (chars text) }
    ensures too_long { (text : List ℕ) → 4096 < length text → line_of_text text ≡ TooLong }
{}

/// A text with its escapes, encoded, is the bytes of the text, each with its escape: no byte of a longer character has one.
/// A text in quotation marks, encoded, is these bytes between two quotation marks.
pub fn escapes_of_bytes()
    ensures text { (text : List ℕ) → encode_utf8_all (flat_map escaped text) ≡ flat_map escaped (encode_utf8_all text) }
    ensures in_marks { (bytes : List ℕ) → IsUtf8 bytes → encode_utf8_all (quoted (chars bytes)) ≡ ((34 ∷ []) ++ flat_map escaped bytes) ++ 34 ∷ [] }
{}

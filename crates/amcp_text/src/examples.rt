//! Worked examples of the definitions in `specs/`, which the checker computes. Each is the contract of a function that
//! does nothing. Bytes are given as numbers if a text cannot have them: LF is 10, CR is 13, and é is 195 and 169.
ghost use Rattle.std.specs.Prelude.{◌≡◌, ◌∷◌, ◌++◌, [], Some, None, Ok, Err, codes, pos, neg_ℤ};
ghost use Rattle.amcp_text.specs.Lines.{NotUtf8, lines_of};
ghost use Rattle.amcp_text.specs.Micros.{printed_micro};
ghost use Rattle.amcp_text.specs.Numbers.{number_within, plain_number_within, whole_number};
ghost use Rattle.amcp_text.specs.declared.line_reader.TheConstants.{MAX_LINE_BYTES};
ghost use Rattle.amcp_text.specs.declared.req_token.TheConstants.{MAX_TOKEN_BYTES};
ghost use Rattle.amcp_text.specs.declared.token.TokenFault.TheVariants.{BadEscape, OpenQuote};
ghost use Rattle.amcp_text.specs.Worked.{line, value, words};

/// A line ends at LF, and one CR directly before it belongs to the end. What follows the last LF is no line.
pub fn lines_of_streams()
    ensures none { lines_of [] ≡ [] }
    ensures not_ended { lines_of (codes "PLAY 1-0 RED") ≡ [] }
    ensures two { lines_of (codes "PLAY 1-0" ++ 13 ∷ 10 ∷ codes "STOP 1-0" ++ 10 ∷ codes "CLEAR") ≡ line "PLAY 1-0" ∷ line "STOP 1-0" ∷ [] }
    ensures empty { lines_of (10 ∷ 13 ∷ 10 ∷ 13 ∷ []) ≡ line "" ∷ line "" ∷ [] }
    ensures inner_return { lines_of (codes "a" ++ 13 ∷ codes "b" ++ 10 ∷ []) ≡ line "a\rb" ∷ [] }
    ensures two_returns { lines_of (codes "a" ++ 13 ∷ 13 ∷ 10 ∷ []) ≡ line "a\r" ∷ [] }
    ensures cut_character { lines_of (195 ∷ 169 ∷ 10 ∷ 195 ∷ 13 ∷ 10 ∷ codes "a" ++ 10 ∷ []) ≡ line "é" ∷ NotUtf8 ∷ line "a" ∷ [] }
{}

/// Blanks outside quotes separate words. Quotes may open within a word, and an empty pair of them is a word.
pub fn words_of_lines()
    ensures none { words "" ≡ Ok [] }
    ensures blanks { words " \t " ≡ Ok [] }
    ensures three { words "PLAY 1-0 RED" ≡ Ok (codes "PLAY" ∷ codes "1-0" ∷ codes "RED" ∷ []) }
    ensures many_blanks { words "  a\t \tb " ≡ Ok (codes "a" ∷ codes "b" ∷ []) }
    ensures within_a_word { words "play 1-0 \"r\"ed" ≡ Ok (codes "play" ∷ codes "1-0" ∷ codes "red" ∷ []) }
    ensures empty_words { words "a \"\" b\"\"" ≡ Ok (codes "a" ∷ [] ∷ codes "b" ∷ []) }
    ensures blank_in_quotes { words "\"a b\"c\" \"d" ≡ Ok (codes "a bc d" ∷ []) }
    ensures escapes { words "a\\\"b \\\\ \\n" ≡ Ok (codes "a\"b" ∷ codes "\\" ∷ codes "\n" ∷ []) }
    ensures escapes_in_quotes { words "\"a\\nb\\\"\\\\\" c" ≡ Ok (codes "a\nb\"\\" ∷ codes "c" ∷ []) }
{}

/// A fault names its byte: that of the first bad escape, and that of open quotes only if there is no bad escape. The
/// character é takes two bytes of the line, and € takes three.
pub fn faulty_lines()
    ensures open_quotes { words "PLAY 1-0 \"RED" ≡ Err (OpenQuote 9) }
    ensures second_pair { words "\"a\" \"" ≡ Err (OpenQuote 4) }
    ensures longer_character { words "\"€\" \"\\\"" ≡ Err (OpenQuote 6) }
    ensures at_the_end { words "a\\" ≡ Err (BadEscape 1) }
    ensures before_open_quotes { words "\"\\x \\" ≡ Err (BadEscape 1) }
    ensures capital { words "é\\N" ≡ Err (BadEscape 2) }
    ensures after_an_escape { words "\"\\\\\"\\t" ≡ Err (BadEscape 4) }
    ensures first_of_two { words "PLAY \"\\\\ \\x \\y" ≡ Err (BadEscape 9) }
{}

/// A whole number has only digits. Leading zeros are allowed, except if a plain number is asked for.
pub fn whole_numbers()
    ensures zeros { whole_number (codes "007") ≡ Some 7 }
    ensures empty { whole_number [] ≡ None }
    ensures sign { whole_number (codes "+7") ≡ None }
    ensures least { number_within 7 9 (codes "007") ≡ Some 7 }
    ensures below { number_within 7 9 (codes "6") ≡ None }
    ensures above { number_within 7 9 (codes "10") ≡ None }
    ensures plain { plain_number_within 7 90 (codes "70") ≡ Some 70 }
    ensures plain_zero { plain_number_within 0 9 (codes "0") ≡ None }
{}

/// Digits after the sixth place are dropped before the range of minus 1000 to 1000 is tested.
pub fn decimals()
    ensures dropped { value "1000.0000009" ≡ Some (pos 1000000000) }
    ensures outside { value "1000.000001" ≡ None }
    ensures negative { value "-.25" ≡ Some (neg_ℤ (pos 250000)) }
    ensures plus { value "+2." ≡ Some (pos 2000000) }
    ensures no_digit { value "+." ≡ None }
    ensures two_points { value "1.2.3" ≡ None }
{}

/// A value is printed without trailing zeros, and a whole one without a point.
pub fn printed_values()
    ensures negative { printed_micro (neg_ℤ (pos 12030045)) ≡ codes "-12.030045" }
    ensures whole { printed_micro (pos 1000000000) ≡ codes "1000" }
    ensures tenth { printed_micro (pos 100000) ≡ codes "0.1" }
    ensures zero { printed_micro (pos 0) ≡ codes "0" }
{}

/// The limits of a client's line and of a token, in bytes, as numbers.
pub fn limits()
    ensures line { MAX_LINE_BYTES ≡ 4096 }
    ensures token { MAX_TOKEN_BYTES ≡ 64 }
{}

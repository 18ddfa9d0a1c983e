//! Worked replies. Each function does nothing, and its contract says which lines replies have. There are two channels, an
//! unreadable clip BAD, and a clip whose name has each character that is escaped.
#![tactic(auto, unfolding(crate::proofs::OnLiterals::replies_on_literals))]

ghost use Rattle.std.specs.Prelude.{◌≡◌, ◌∷◌, ◌++◌, [], codes, pos, neg_ℤ};
ghost use Rattle.play_types.specs.Answer.{micros_of, status_list_of};
ghost use Rattle.play_types.specs.declared.answer.Status.TheVariants.{Empty, Playing};
ghost use Rattle.play_types.specs.declared.reply.Name.TheVariants as name;
ghost use Rattle.play_types.specs.declared.reply.Reply.TheVariants.{Done, Value, Info, Cls, Version, Unknown, Refused, NoMemory};
ghost use Rattle.return_codes.specs.Worked.{bytes, lines, token_lines};

/// Replies of one line, which has a code, the name of a command and a word.
pub fn codes()
    ensures done { lines (Done name.LoadBg) ≡ codes "202 LOADBG OK" ∷ [] }
    ensures client { lines (Refused 404 name.Play) ≡ codes "404 PLAY ERROR" ∷ [] }
    ensures server { lines (Refused 501 name.Mixer) ≡ codes "501 MIXER FAILED" ∷ [] }
    ensures no_memory { lines NoMemory ≡ codes "500 FAILED" ∷ [] }
    ensures ends { bytes (Done name.Play) ≡ codes "202 PLAY OK" ++ 13 ∷ 10 ∷ [] }
{}

/// Replies of two lines.
pub fn two_lines()
    ensures one_value { lines (Value (micros_of (pos 1000000 ∷ []) 1)) ≡ codes "201 MIXER OK" ∷ codes "1" ∷ [] }
    ensures four_values { lines (Value (micros_of (neg_ℤ (pos 250000) ∷ pos 500000 ∷ pos 1000001 ∷ pos 2000000 ∷ []) 4))
        ≡ codes "201 MIXER OK" ∷ codes "-0.25 0.5 1.000001 2" ∷ [] }
    ensures version { lines Version ≡ codes "201 VERSION OK" ∷ codes "2.0 PLAYD" ∷ [] }
    ensures unknown { lines (Unknown (codes "PLAY 1-0 \"R" ++ 201 ∷ codes "D"))
        ≡ codes "400 ERROR" ∷ (codes "PLAY 1-0 \"R" ++ 195 ∷ 137 ∷ codes "D") ∷ [] }
    ensures no_text { bytes (Unknown []) ≡ codes "400 ERROR" ++ 13 ∷ 10 ∷ 13 ∷ 10 ∷ [] }
{}

/// Replies that list something, and end with an empty line.
pub fn lists()
    ensures statuses { lines (Info (status_list_of (Playing ∷ Empty ∷ []) 2))
        ≡ codes "200 INFO OK" ∷ codes "1 1280x720 PLAYING" ∷ codes "2 1x4096 EMPTY" ∷ [] ∷ [] }
    ensures names { lines Cls
        ≡ codes "200 CLS OK" ∷ codes "\"BAD\" UNREADABLE" ∷ (34 ∷ 195 ∷ 137 ∷ codes " \\\"B\\\\C\\nD\" 320x180 1000000 4096") ∷ [] ∷ [] }
{}

/// The first line alone has the token, and a 500 has none.
pub fn tokens()
    ensures one_line { token_lines (codes "a1") (Refused 503 name.Play) ≡ codes "RES a1 503 PLAY FAILED" ∷ [] }
    ensures two_lines { token_lines (codes "d") (Unknown (codes "REQ d REQ e INFO"))
        ≡ codes "RES d 400 ERROR" ∷ codes "REQ d REQ e INFO" ∷ [] }
    ensures statuses { token_lines (codes "~") (Info (status_list_of (Playing ∷ Empty ∷ []) 2))
        ≡ codes "RES ~ 200 INFO OK" ∷ codes "1 1280x720 PLAYING" ∷ codes "2 1x4096 EMPTY" ∷ [] ∷ [] }
    ensures no_memory { token_lines (codes "a1") NoMemory ≡ codes "500 FAILED" ∷ [] }
{}

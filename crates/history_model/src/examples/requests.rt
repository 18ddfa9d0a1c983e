//! Which token a line has, and which lines the reply to it has.
#![tactic(auto, unfolding(crate::proofs::OnLiterals::text_on_literals, crate::proofs::OnLiterals::reply_on_literals))]

ghost use Rattle.std.specs.Prelude.{◌≡◌, ◌∷◌, ◌++◌, [], Some, None, codes};
ghost use Rattle.play_types.specs.declared.reply.Name.TheVariants as name;
ghost use Rattle.play_types.specs.declared.reply.Reply.TheVariants as reply;
ghost use Rattle.history_model.specs.Worked.{one_pixel};
ghost use Rattle.history_model.specs.sessions.Request.{text_token};
ghost use Rattle.history_model.specs.text.Replies.{answer_lines};

/// A line has a token if its first word is REQ, in any case, and its second word is a token. A command may be missing. A REQ
/// after the token brings no second token.
pub fn tokens_of_lines()
    ensures command { text_token (codes "REQ a1 PLAY 1-0 RED") ≡ Some (codes "a1") }
    ensures small { text_token (codes "req b INFO") ≡ Some (codes "b") }
    ensures alone { text_token (codes "REQ c") ≡ Some (codes "c") }
    ensures second_req { text_token (codes "REQ d REQ e INFO") ≡ Some (codes "d") }
    ensures no_word { text_token (codes "REQ") ≡ None }
    ensures blank { text_token (codes "REQ \"x y\" INFO") ≡ None }
    ensures no_text { text_token (codes "REQ \"\" INFO") ≡ None }
    ensures mark { text_token (codes "REQ a\\\"b INFO") ≡ None }
    ensures open_quotes { text_token (codes "REQ f \"INFO") ≡ None }
    ensures other { text_token (codes "INFO REQ g") ≡ None }
{}

/// The first line of a reply begins with the token. A 500 has none.
pub fn replies_with_tokens()
    ensures done { answer_lines one_pixel.config [] (Some (codes "a1")) (reply.Done name.Play) ≡ codes "RES a1 202 PLAY OK" ∷ [] }
    ensures unknown { answer_lines one_pixel.config [] (Some (codes "d")) (reply.Unknown (codes "REQ d REQ e INFO"))
        ≡ codes "RES d 400 ERROR" ∷ codes "REQ d REQ e INFO" ∷ [] }
    ensures no_memory { answer_lines one_pixel.config [] (Some (codes "e")) reply.NoMemory ≡ codes "500 FAILED" ∷ [] }
    ensures without { answer_lines one_pixel.config [] None (reply.Refused 503 name.Play) ≡ codes "503 PLAY FAILED" ∷ [] }
{}

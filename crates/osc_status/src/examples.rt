//! Worked examples of the definitions in `specs/`, which the checker computes. Each is the contract of a function that
//! does nothing.
#![tactic(auto, unfolding(crate::proofs::OnLiterals::messages_on_literals))]

ghost use Rattle.std.specs.Prelude.{◌≡◌, ◌∷◌, [], pos, neg_ℤ, codes};
ghost use Rattle.osc_status.specs.Status.{frame_message, paused_message, producer_message, ticks_message};
ghost use Rattle.osc_status.specs.Worked.{hex, message, red};
ghost use Rattle.osc_status.specs.declared.arg.OscValue.TheVariants.{Int, Word};
ghost use Rattle.osc_status.specs.declared.status_message.TheConstants.{TICKS_MODULUS};

/// A text has one to four zero bytes after it, and numbers have their highest byte first.
pub fn bytes_of_messages()
    ensures no_arguments { hex (message "/a" []) ≡ codes "2f6100002c000000" }
    ensures padded_by_four { hex (message "/abc" []) ≡ codes "2f616263000000002c000000" }
    ensures two { hex (message "/" (Int (pos 258) ∷ Int (neg_ℤ (pos 2)) ∷ [])) ≡ codes "2f0000002c69690000000102fffffffe" }
    ensures word { hex (message "/" (Word (233 ∷ []) ∷ [])) ≡ codes "2f0000002c730000c3a90000" }
{}

/// The messages of a red layer after one tick.
pub fn messages_of_a_colour()
    ensures ticks { hex (ticks_message 1 1) ≡ codes "2f6368616e6e656c2f312f7469636b73000000002c69000000000001" }
    ensures producer { hex (producer_message [] red) ≡ codes "2f6368616e6e656c2f312f6c617965722f302f70726f6475636572002c730000234646464630303030000000" }
    ensures frame { hex (frame_message red) ≡ codes "2f6368616e6e656c2f312f6c617965722f302f6672616d65000000002c6969000000000000000000" }
    ensures paused { hex (paused_message red) ≡ codes "2f6368616e6e656c2f312f6c617965722f302f7061757365640000002c69000000000000" }
{}

/// Numbers have 32 bits with a sign, so ticks are counted modulo 2,147,483,648.
pub fn limits()
    ensures { TICKS_MODULUS ≡ 2147483648 }
{}

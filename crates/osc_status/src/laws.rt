//! Laws of the definitions in `specs/`. Each is the contract of a function that does nothing.
ghost use Rattle.std.specs.Prelude.{◌≡◌};
ghost use Rattle.osc_status.specs.Message.{IsMessageOf};
ghost use Rattle.osc_status.specs.declared.message.Message.{Message};
ghost use Rattle.std.specs.Prelude.{List, ℕ};

/// No bytes are those of two messages.
pub fn bytes_have_one_message()
    ensures { (bytes : List ℕ) (one other : Message) → IsMessageOf bytes one → IsMessageOf bytes other → one ≡ other }
{}

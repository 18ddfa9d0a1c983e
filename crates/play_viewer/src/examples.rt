//! Worked command lines. Each function does nothing; its contract states which command lines are refused and what the accepted
//! ones set.
#![tactic(auto, unfolding(crate::proofs::OnLiterals::words_on_literals))]

ghost use Rattle.std.specs.Prelude.{◌≡◌, ◌∷◌, [], Some, codes, false, true};
ghost use Rattle.play_viewer.specs.Worked.{faults, log, pictures, receivers, too_many};

use clap::error::ErrorKind;

/// Command lines that are accepted.
pub fn accepted()
    ensures shortest { faults ("--config" ∷ "a" ∷ "--log" ∷ "b" ∷ []) ≡ [] }
    ensures standard_input { log ("--config" ∷ "a" ∷ "--log" ∷ "-" ∷ []) ≡ Some (codes "-") }
    ensures shown { pictures ("--config" ∷ "a" ∷ "--log" ∷ "b" ∷ []) ≡ true }
    ensures no_receiver { receivers ("--config" ∷ "a" ∷ "--log" ∷ "b" ∷ []) ≡ [] }
    ensures whole { faults ("--no-pictures" ∷ "--osc" ∷ "c:1" ∷ "--log=b" ∷ "--workers" ∷ "64" ∷ "--osc" ∷ "d:2" ∷ "--listen" ∷ "e:3" ∷ "--config=a" ∷ []) ≡ [] }
    ensures not_shown { pictures ("--no-pictures" ∷ "--config" ∷ "a" ∷ "--log" ∷ "b" ∷ []) ≡ false }
    ensures in_order { receivers ("--osc" ∷ "c:1" ∷ "--log=b" ∷ "--osc" ∷ "d:2" ∷ "--config=a" ∷ []) ≡ codes "c:1" ∷ codes "d:2" ∷ [] }
{}

/// Command lines that are refused.
pub fn refused()
    ensures no_log { faults ("--config" ∷ "a" ∷ []) ≡ ErrorKind.MissingRequiredArgument ∷ [] }
    ensures no_config { faults ("--log" ∷ "b" ∷ []) ≡ ErrorKind.MissingRequiredArgument ∷ [] }
    ensures workers_65 { faults ("--config" ∷ "a" ∷ "--log" ∷ "b" ∷ "--workers" ∷ "65" ∷ []) ≡ ErrorKind.ValueValidation ∷ [] }
    ensures listen_twice { faults ("--config" ∷ "a" ∷ "--log" ∷ "b" ∷ "--listen" ∷ "c:1" ∷ "--listen" ∷ "c:1" ∷ []) ≡ ErrorKind.ArgumentConflict ∷ [] }
    ensures flag_twice { faults ("--config" ∷ "a" ∷ "--log" ∷ "b" ∷ "--no-pictures" ∷ "--no-pictures" ∷ []) ≡ ErrorKind.ArgumentConflict ∷ [] }
    ensures surplus { faults ("--config" ∷ "a" ∷ "--log" ∷ "b" ∷ "c" ∷ []) ≡ ErrorKind.UnknownArgument ∷ [] }
{}

/// Command lines with as many receivers as there may be, and with one more.
pub fn receivers_of_status()
    ensures eight { too_many ("--config=a" ∷ "--log=b" ∷ "--osc=c" ∷ "--osc=c" ∷ "--osc=c" ∷ "--osc=c" ∷ "--osc=c" ∷ "--osc=c" ∷ "--osc=c" ∷ "--osc=c" ∷ []) ≡ false }
    ensures nine { too_many ("--config=a" ∷ "--log=b" ∷ "--osc=c" ∷ "--osc=c" ∷ "--osc=c" ∷ "--osc=c" ∷ "--osc=c" ∷ "--osc=c" ∷ "--osc=c" ∷ "--osc=c" ∷ "--osc=c" ∷ []) ≡ true }
{}

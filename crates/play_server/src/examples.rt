//! Worked command lines. Each function does nothing; its contract states which command lines are refused and what the accepted
//! ones set.
#![tactic(auto, unfolding(crate::proofs::OnLiterals::words_on_literals))]

ghost use Rattle.std.specs.Prelude.{◌≡◌, ◌∷◌, [], Some, None, codes, false, true};
ghost use Rattle.play_server.specs.Worked.{config, faults, journal, one_file, resume, workers};

use clap::error::ErrorKind;

/// Command lines that are accepted.
pub fn accepted()
    ensures shortest { faults ("--config" ∷ "a.toml" ∷ []) ≡ [] }
    ensures path { config ("--config" ∷ "a.toml" ∷ []) ≡ Some (codes "a.toml") }
    ensures one_worker { workers ("--config" ∷ "a.toml" ∷ []) ≡ 1 }
    ensures no_journal { journal ("--config" ∷ "a.toml" ∷ []) ≡ None }
    ensures whole { faults ("--workers" ∷ "64" ∷ "--journal" ∷ "j" ∷ "--config" ∷ "a" ∷ []) ≡ [] }
    ensures most_workers { workers ("--workers" ∷ "64" ∷ "--journal" ∷ "j" ∷ "--config" ∷ "a" ∷ []) ≡ 64 }
    ensures file { journal ("--workers" ∷ "64" ∷ "--journal" ∷ "j" ∷ "--config" ∷ "a" ∷ []) ≡ Some (codes "j") }
    ensures equals_sign { config ("--config=a" ∷ "--workers=+4" ∷ []) ≡ Some (codes "a") }
    ensures plus { workers ("--config=a" ∷ "--workers=+4" ∷ []) ≡ 4 }
{}

/// Command lines that are refused, each with its kind of error.
pub fn refused()
    ensures nothing { faults [] ≡ ErrorKind.MissingRequiredArgument ∷ [] }
    ensures no_config { faults ("--workers" ∷ "4" ∷ []) ≡ ErrorKind.MissingRequiredArgument ∷ [] }
    ensures workers_0 { faults ("--config" ∷ "a" ∷ "--workers" ∷ "0" ∷ []) ≡ ErrorKind.ValueValidation ∷ [] }
    ensures workers_65 { faults ("--config" ∷ "a" ∷ "--workers" ∷ "65" ∷ []) ≡ ErrorKind.ValueValidation ∷ [] }
    ensures no_number { faults ("--config" ∷ "a" ∷ "--workers" ∷ "x" ∷ []) ≡ ErrorKind.ValueValidation ∷ [] }
    ensures config_twice { faults ("--config" ∷ "a" ∷ "--config" ∷ "a" ∷ []) ≡ ErrorKind.ArgumentConflict ∷ [] }
    ensures workers_twice { faults ("--config" ∷ "a" ∷ "--workers" ∷ "1" ∷ "--workers" ∷ "1" ∷ []) ≡ ErrorKind.ArgumentConflict ∷ [] }
    ensures journal_twice { faults ("--config" ∷ "a" ∷ "--journal" ∷ "j" ∷ "--journal" ∷ "j" ∷ []) ≡ ErrorKind.ArgumentConflict ∷ [] }
    ensures help { faults ("--help" ∷ []) ≡ ErrorKind.UnknownArgument ∷ [] }
    ensures version { faults ("--version" ∷ []) ≡ ErrorKind.UnknownArgument ∷ [] }
    ensures surplus { faults ("--config" ∷ "a" ∷ "b" ∷ []) ≡ ErrorKind.UnknownArgument ∷ [] }
{}

/// Command lines that name a history to go on from: it is another file than that of `--journal`, and another than its log.
pub fn resumed()
    ensures alone { faults ("--resume" ∷ "r" ∷ "--config" ∷ "a" ∷ []) ≡ [] }
    ensures path { resume ("--resume" ∷ "r" ∷ "--config" ∷ "a" ∷ []) ≡ Some (codes "r") }
    ensures no_resume { resume ("--config" ∷ "a" ∷ "--journal" ∷ "j" ∷ []) ≡ None }
    ensures beside { one_file ("--config" ∷ "a" ∷ "--resume=j.log.1" ∷ "--journal" ∷ "j" ∷ []) ≡ false }
    ensures journal_of_a_log { one_file ("--config" ∷ "a" ∷ "--resume" ∷ "j" ∷ "--journal" ∷ "j.log" ∷ []) ≡ false }
    ensures no_journal { one_file ("--config" ∷ "a" ∷ "--resume" ∷ "j" ∷ []) ≡ false }
    ensures same { one_file ("--config" ∷ "a" ∷ "--resume" ∷ "j" ∷ "--journal" ∷ "j" ∷ []) ≡ true }
    ensures log { one_file ("--journal=j" ∷ "--config" ∷ "a" ∷ "--resume" ∷ "j.log" ∷ []) ≡ true }
    ensures twice { faults ("--config" ∷ "a" ∷ "--resume" ∷ "r" ∷ "--resume" ∷ "r" ∷ []) ≡ ErrorKind.ArgumentConflict ∷ [] }
{}

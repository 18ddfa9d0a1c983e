//! The scripts that `gen` makes.
ghost use Rattle.std.specs.Prelude.{◌≡◌, ◌≤◌, ℕ, All, List, length};
ghost use Rattle.history_model.specs.scripts.Generator.{generated_lines};
ghost use Rattle.history_model.specs.scripts.Line.{Rejected, meaning};

/// Each line of a generated script is one that a script may have, and has at most 64 bytes.
pub fn generated_lines_are_accepted()
    ensures accepted { (seed steps : ℕ) → All (λ line. meaning line ≡ Rejected → ⊥) (generated_lines seed steps) }
    ensures short { (seed steps : ℕ) → All (λ line. length line ≤ 64) (generated_lines seed steps) }
{}

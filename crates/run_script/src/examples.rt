//! The limits of command lines, as numbers.
ghost use Rattle.std.specs.Prelude.{◌≡◌};
ghost use Rattle.run_script.specs.declared.command_line.TheConstants.{MAX_SEED, MAX_WORKERS};
ghost use Rattle.made_script.specs.declared.generating.TheConstants.{MAX_STEPS};
ghost use Rattle.run_script.specs.declared.converting.TheConstants.{MAX_CLIP_BYTES};

/// Up to 64 threads make frames. A generated script has a seed of 64 bits and at most 100,000 steps, and a clip that is converted has at
/// most 1,073,741,824 bytes.
pub fn limits()
    ensures workers { MAX_WORKERS ≡ 64 }
    ensures seed { MAX_SEED ≡ 18446744073709551615 }
    ensures steps { MAX_STEPS ≡ 100000 }
    ensures clip { MAX_CLIP_BYTES ≡ 1073741824 }
{}

//! The limits of scripts, as numbers.
ghost use Rattle.std.specs.Prelude.{◌≡◌};
ghost use Rattle.history_model.specs.declared.limits.TheConstants.{MAX_INPUT_BYTES, MAX_SCRIPT_LINE_BYTES, MAX_SESSION, MAX_TICKS_PER_LINE, MAX_WORKER};

/// The limits of a script and of its lines.
pub fn limits_of_scripts()
    ensures line { MAX_SCRIPT_LINE_BYTES ≡ 8192 }
    ensures ticks { MAX_TICKS_PER_LINE ≡ 100000 }
    ensures input { MAX_INPUT_BYTES ≡ 4294967296 }
    ensures worker { MAX_WORKER ≡ 65535 }
    ensures session { MAX_SESSION ≡ 4294967295 }
{}

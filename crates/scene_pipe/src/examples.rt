//! The limits of a pipe, as numbers.
ghost use Rattle.std.specs.Prelude.{◌≡◌};
ghost use Rattle.scene_pipe.specs.declared.pipe.TheConstants.{SETS};

/// A pipe has four sets of scenes.
pub fn limits()
    ensures sets { SETS ≡ 4 }
{}

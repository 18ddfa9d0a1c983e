//! The limits of bands, as numbers.
ghost use Rattle.std.specs.Prelude.{◌≡◌};
ghost use Rattle.band_render.specs.declared.plan.TheConstants.{MOST_BANDS};
ghost use Rattle.band_render.specs.declared.rooms.TheConstants.{MIN_SHARED_PIXELS};

/// A channel has at most 1,024 bands, and frames are shared among workers if they have at least 64 pixels in all.
pub fn limits()
    ensures bands { MOST_BANDS ≡ 1024 }
    ensures pixels { MIN_SHARED_PIXELS ≡ 64 }
{}

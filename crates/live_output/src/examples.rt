//! The limits of a queue as numbers, and examples of picked frames.
ghost use Rattle.std.specs.Prelude.{◌≡◌, ◌/◌, ◌+◌, ◌-◌, ◌*◌, ◌≤◌, ◌∷◌, [], ℕ, max, min};
ghost use Rattle.live_output.specs.declared.limits.TheConstants.{MAX_HELD_BYTES, MAX_READERS, MAX_WAITING, MIN_WAITING, MOVING};
ghost use Rattle.live_output.specs.Picked.{IsPickedFrom};

/// The frames of an output with one reader have at most 64 MiB, unless the two that may always wait need more. At most
/// 1,024 frames wait, and an output has at most eight readers.
pub fn limits()
    ensures bytes { MAX_HELD_BYTES ≡ 67108864 }
    ensures least { MIN_WAITING ≡ 2 }
    ensures most { MAX_WAITING ≡ 1024 }
    ensures moving { MOVING ≡ 2 }
    ensures readers { MAX_READERS ≡ 8 }
{}

/// Of frames of 1280x720 pixels without sound 15 may wait, of 1920x1080 five, of 80x45 1,024 and of 4096x4096 two.
pub fn waiting()
    ensures small_high_definition { min (max (MAX_HELD_BYTES / 3686400 - (MOVING + 1)) MIN_WAITING) MAX_WAITING ≡ 15 }
    ensures high_definition { min (max (MAX_HELD_BYTES / 8294400 - (MOVING + 1)) MIN_WAITING) MAX_WAITING ≡ 5 }
    ensures small { min (max (MAX_HELD_BYTES / 14400 - (MOVING + 1)) MIN_WAITING) MAX_WAITING ≡ 1024 }
    ensures large { min (max (MAX_HELD_BYTES / 67108864 - (MOVING + 1)) MIN_WAITING) MAX_WAITING ≡ 2 }
{}

/// Of the first three sizes, the waiting frames, the one that a reader has begun and `MOVING` more have at most 64 MiB.
pub fn held()
    ensures small_high_definition { (15 + 1 + MOVING) * 3686400 ≤ MAX_HELD_BYTES }
    ensures high_definition { (5 + 1 + MOVING) * 8294400 ≤ MAX_HELD_BYTES }
    ensures small { (1024 + 1 + MOVING) * 14400 ≤ MAX_HELD_BYTES }
{}

/// The second and the fourth of four frames are picked from them. These two in reverse order are not, nor is one of
/// them twice.
pub fn picked()
    ensures in_order { IsPickedFrom {X = ℕ} (2 ∷ 4 ∷ []) (1 ∷ 2 ∷ 3 ∷ 4 ∷ []) }
    ensures falling { IsPickedFrom {X = ℕ} (4 ∷ 2 ∷ []) (1 ∷ 2 ∷ 3 ∷ 4 ∷ []) → ⊥ }
    ensures twice { IsPickedFrom {X = ℕ} (2 ∷ 2 ∷ []) (1 ∷ 2 ∷ 3 ∷ 4 ∷ []) → ⊥ }
{}

//! Worked examples of the definitions in `specs/`, which the checker computes.
ghost use Rattle.std.specs.Prelude.{◌≡◌, ◌∷◌, [], Some, None, codes};
ghost use Rattle.clip_store.specs.Listing.{clip_file, first_twice, sorted};
ghost use Rattle.clip_store.specs.Scan.{first_above};
ghost use Rattle.clip_store.specs.declared.reading.TheConstants.{MAX_MEDIA_BYTES};

/// The names of clips.
pub fn names_of_clips()
    ensures mixed_case { clip_file (codes "a.b.RcLp")
        ≡ Some (record { name = codes "A.B"; file = codes "a.b.RcLp" }) }
    ensures empty_name { clip_file (codes ".rclp") ≡ Some (record { name = []; file = codes ".rclp" }) }
    ensures no_dot { clip_file (codes "rclp") ≡ None }
    ensures other_ending { clip_file (codes "a.rclp.txt") ≡ None }
{}

/// Files in order of their clips' names, and then of their own.
pub fn files_in_order()
    ensures sorted { sorted (record { name = codes "B"; file = codes "b" } ∷ record { name = codes "A"; file = codes "a" } ∷ record { name = codes "A"; file = codes "A" } ∷ [])
        ≡ record { name = codes "A"; file = codes "A" } ∷ record { name = codes "A"; file = codes "a" } ∷ record { name = codes "B"; file = codes "b" } ∷ [] }
    ensures least_twice { first_twice (record { name = codes "A"; file = codes "A" } ∷ record { name = codes "B"; file = codes "B" } ∷ record { name = codes "B"; file = codes "b" }
        ∷ record { name = codes "C"; file = codes "C" } ∷ record { name = codes "C"; file = codes "c" } ∷ [])
        ≡ Some (codes "B") }
    ensures none_twice { first_twice (record { name = codes "A"; file = codes "A" } ∷ record { name = codes "B"; file = codes "B" } ∷ []) ≡ None }
{}

/// The first sum above the limit.
pub fn sums_of_lengths()
    ensures at_the_limit { first_above 0 (1073741823 ∷ 1 ∷ []) ≡ None }
    ensures above_the_limit { first_above 0 (1073741823 ∷ 2 ∷ 5 ∷ []) ≡ Some 1073741825 }
{}

/// The most bytes of all clip files, as a number.
pub fn limits()
    ensures { MAX_MEDIA_BYTES ≡ 1073741824 }
{}

//! Worked examples of the definitions in `specs/`, which the checker computes.
ghost use Rattle.std.specs.Prelude.{◌≡◌, ◌∷◌, ◌++◌, [], Ok, Err, codes};
ghost use Rattle.play_types.specs.ClipFile.{header_bytes};
ghost use Rattle.clip_format.specs.Decoding.{clip_of};
ghost use Rattle.clip_format.specs.Preparing.{prepared_clip, straight_clip};
ghost use Rattle.clip_format.specs.Worked.{small_clip};

use play_types::ClipFault;

/// The file of one pixel of opaque black, and of half red of version 2, and files with a byte too few or too many.
#[tactic(auto, unfolding(crate::specs::Decoding::clip_of, crate::specs::Decoding::header_fault))]
pub fn files()
    ensures clip { clip_of (codes "RCLP" ++ 0 ∷ 1 ∷ 0 ∷ 0 ∷ 0 ∷ 1 ∷ 0 ∷ 1 ∷ 0 ∷ 0 ∷ 0 ∷ 1 ∷ 0 ∷ 0 ∷ 0 ∷ 0 ∷ 0 ∷ 0 ∷ 0 ∷ 255 ∷ [])
        ≡ Ok (record { version = 1; geometry = record { width = 1; height = 1; pairs = 0 }; frames = 1; bytes = 0 ∷ 0 ∷ 0 ∷ 255 ∷ [] }) }
    ensures straight { clip_of (codes "RCLP" ++ 0 ∷ 2 ∷ 0 ∷ 0 ∷ 0 ∷ 1 ∷ 0 ∷ 1 ∷ 0 ∷ 0 ∷ 0 ∷ 1 ∷ 0 ∷ 0 ∷ 0 ∷ 0 ∷ 0 ∷ 0 ∷ 255 ∷ 128 ∷ [])
        ≡ Ok (record { version = 2; geometry = record { width = 1; height = 1; pairs = 0 }; frames = 1; bytes = 0 ∷ 0 ∷ 255 ∷ 128 ∷ [] }) }
    ensures shorter { clip_of (codes "RCLP" ++ 0 ∷ 1 ∷ 0 ∷ 0 ∷ 0 ∷ 1 ∷ 0 ∷ 1 ∷ 0 ∷ 0 ∷ 0 ∷ 1 ∷ 0 ∷ 0 ∷ 0 ∷ 0 ∷ 0 ∷ 0 ∷ 255 ∷ [])
        ≡ Err (ClipFault.Short 24 23) }
    ensures longer { clip_of (codes "RCLP" ++ 0 ∷ 1 ∷ 0 ∷ 0 ∷ 0 ∷ 1 ∷ 0 ∷ 1 ∷ 0 ∷ 0 ∷ 0 ∷ 1 ∷ 0 ∷ 0 ∷ 0 ∷ 0 ∷ 0 ∷ 0 ∷ 255 ∷ 255 ∷ 0 ∷ [])
        ≡ Err (ClipFault.Long 1) }
    ensures header_cut { clip_of (codes "RCLQ") ≡ Err (ClipFault.Short 20 4) }
{}

/// Headers with fields out of range, of which the first is reported, and one with the greatest numbers, which is accepted.
#[tactic(auto, unfolding(crate::specs::Decoding::clip_of, crate::specs::Decoding::header_fault))]
pub fn headers()
    ensures magic { clip_of (codes "RCLp" ++ 0 ∷ 3 ∷ 0 ∷ 1 ∷ 0 ∷ 1 ∷ 0 ∷ 1 ∷ 0 ∷ 0 ∷ 0 ∷ 1 ∷ 0 ∷ 0 ∷ 0 ∷ 0 ∷ []) ≡ Err ClipFault.BadMagic }
    ensures version { clip_of (codes "RCLP" ++ 0 ∷ 3 ∷ 0 ∷ 1 ∷ 0 ∷ 1 ∷ 0 ∷ 1 ∷ 0 ∷ 0 ∷ 0 ∷ 1 ∷ 0 ∷ 0 ∷ 0 ∷ 0 ∷ []) ≡ Err ClipFault.BadVersion }
    ensures version_0 { clip_of (header_bytes 0 (record { width = 1; height = 1; pairs = 0 }) 1) ≡ Err ClipFault.BadVersion }
    ensures high_byte { clip_of (header_bytes 257 (record { width = 1; height = 1; pairs = 0 }) 1) ≡ Err ClipFault.BadVersion }
    ensures flags { clip_of (codes "RCLP" ++ 0 ∷ 1 ∷ 0 ∷ 1 ∷ 0 ∷ 0 ∷ 0 ∷ 1 ∷ 0 ∷ 0 ∷ 0 ∷ 1 ∷ 0 ∷ 0 ∷ 0 ∷ 0 ∷ []) ≡ Err (ClipFault.BadField 6) }
    ensures last_bytes { clip_of (codes "RCLP" ++ 0 ∷ 1 ∷ 0 ∷ 0 ∷ 0 ∷ 1 ∷ 0 ∷ 1 ∷ 0 ∷ 0 ∷ 0 ∷ 1 ∷ 0 ∷ 0 ∷ 1 ∷ 0 ∷ []) ≡ Err (ClipFault.BadField 18) }
    ensures no_columns { clip_of (header_bytes 1 (record { width = 0; height = 0; pairs = 0 }) 1) ≡ Err (ClipFault.BadField 8) }
    ensures columns { clip_of (header_bytes 1 (record { width = 4097; height = 1; pairs = 0 }) 1) ≡ Err (ClipFault.BadField 8) }
    ensures no_rows { clip_of (header_bytes 1 (record { width = 1; height = 0; pairs = 0 }) 0) ≡ Err (ClipFault.BadField 10) }
    ensures rows { clip_of (header_bytes 1 (record { width = 1; height = 4097; pairs = 0 }) 1) ≡ Err (ClipFault.BadField 10) }
    ensures no_frames { clip_of (header_bytes 1 (record { width = 1; height = 1; pairs = 4097 }) 0) ≡ Err (ClipFault.BadField 12) }
    ensures frames { clip_of (header_bytes 1 (record { width = 1; height = 1; pairs = 0 }) 1000001) ≡ Err (ClipFault.BadField 12) }
    ensures pairs { clip_of (header_bytes 1 (record { width = 1; height = 1; pairs = 4097 }) 1) ≡ Err (ClipFault.BadField 16) }
    ensures greatest { clip_of (header_bytes 1 (record { width = 4096; height = 4096; pairs = 4096 }) 1000000)
        ≡ Err (ClipFault.Short 67125248000020 20) }
{}

/// Two frames of one pixel and one pair of sound: in version 1 colours above the alpha are lowered to it, in version 2 they are
/// multiplied by it, and the sound stays.
#[tactic(auto, unfolding(crate::specs::Preparing::prepared_clip))]
pub fn prepared()
    ensures lowered { prepared_clip (small_clip 1 (9 ∷ 7 ∷ 8 ∷ 7 ∷ 9 ∷ 7 ∷ 8 ∷ 7 ∷ 1 ∷ 255 ∷ 3 ∷ 100 ∷ 1 ∷ 255 ∷ 3 ∷ 100 ∷ []))
        ≡ small_clip 1 (7 ∷ 7 ∷ 7 ∷ 7 ∷ 9 ∷ 7 ∷ 8 ∷ 7 ∷ 1 ∷ 100 ∷ 3 ∷ 100 ∷ 1 ∷ 255 ∷ 3 ∷ 100 ∷ []) }
    ensures multiplied { prepared_clip (small_clip 2 (9 ∷ 77 ∷ 255 ∷ 255 ∷ 9 ∷ 7 ∷ 8 ∷ 7 ∷ 1 ∷ 255 ∷ 128 ∷ 128 ∷ 1 ∷ 255 ∷ 3 ∷ 100 ∷ []))
        ≡ small_clip 1 (9 ∷ 77 ∷ 255 ∷ 255 ∷ 9 ∷ 7 ∷ 8 ∷ 7 ∷ 1 ∷ 128 ∷ 64 ∷ 128 ∷ 1 ∷ 255 ∷ 3 ∷ 100 ∷ []) }
{}

/// Straight forms: of a colour above its alpha, of half red, and of a pixel without opacity. The sound stays, and so does each
/// byte of a clip of version 2, also if a colour is above its alpha.
#[tactic(auto, unfolding(crate::specs::Preparing::straight_clip))]
pub fn made_straight()
    ensures version_1 { straight_clip (small_clip 1 (9 ∷ 7 ∷ 3 ∷ 7 ∷ 9 ∷ 7 ∷ 8 ∷ 7 ∷ 5 ∷ 0 ∷ 64 ∷ 128 ∷ 1 ∷ 255 ∷ 3 ∷ 100 ∷ []))
        ≡ small_clip 2 (255 ∷ 255 ∷ 109 ∷ 7 ∷ 9 ∷ 7 ∷ 8 ∷ 7 ∷ 10 ∷ 0 ∷ 128 ∷ 128 ∷ 1 ∷ 255 ∷ 3 ∷ 100 ∷ []) }
    ensures clear { straight_clip (small_clip 1 (9 ∷ 7 ∷ 3 ∷ 0 ∷ 9 ∷ 7 ∷ 8 ∷ 7 ∷ 1 ∷ 2 ∷ 3 ∷ 255 ∷ 1 ∷ 255 ∷ 3 ∷ 100 ∷ []))
        ≡ small_clip 2 (0 ∷ 0 ∷ 0 ∷ 0 ∷ 9 ∷ 7 ∷ 8 ∷ 7 ∷ 1 ∷ 2 ∷ 3 ∷ 255 ∷ 1 ∷ 255 ∷ 3 ∷ 100 ∷ []) }
    ensures version_2 { straight_clip (small_clip 2 (9 ∷ 7 ∷ 3 ∷ 0 ∷ 9 ∷ 7 ∷ 8 ∷ 7 ∷ 255 ∷ 2 ∷ 3 ∷ 1 ∷ 1 ∷ 255 ∷ 3 ∷ 100 ∷ []))
        ≡ small_clip 2 (9 ∷ 7 ∷ 3 ∷ 0 ∷ 9 ∷ 7 ∷ 8 ∷ 7 ∷ 255 ∷ 2 ∷ 3 ∷ 1 ∷ 1 ∷ 255 ∷ 3 ∷ 100 ∷ []) }
{}

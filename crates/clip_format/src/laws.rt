//! Laws of the definitions in `specs/`, each the contract of a function that does nothing.
ghost use Rattle.std.specs.Prelude.{◌≡◌, Ok};
ghost use Rattle.play_types.specs.ClipFile.{ClipView, IsClip, clip_bytes};
ghost use Rattle.play_types.specs.declared.clip.TheConstants.{MULTIPLIED, STRAIGHT};
ghost use Rattle.clip_format.specs.Decoding.{clip_of};
ghost use Rattle.clip_format.specs.Preparing.{AreBytes, IsLowered, prepared_clip, straight_clip};

/// The file of a clip is read as the clip.
pub fn file_of_a_clip()
    ensures { (clip : ClipView) → IsClip clip → clip_of (clip_bytes clip) ≡ Ok clip }
{}

/// A clip that was prepared is a clip of version 1, and no pixel of it has a colour byte above its alpha.
pub fn clip_that_was_prepared()
    ensures clip { (clip : ClipView) → IsClip clip → IsClip (prepared_clip clip) }
    ensures version { (clip : ClipView) → (prepared_clip clip).version ≡ MULTIPLIED }
    ensures lowered { (clip : ClipView) → IsClip clip → AreBytes clip.bytes → IsLowered (prepared_clip clip) }
{}

/// A clip that was made straight is a clip of version 2, and shows the pixels and has the sound of the clip that it was made of.
pub fn clip_that_was_made_straight()
    ensures clip { (clip : ClipView) → IsClip clip → IsClip (straight_clip clip) }
    ensures version { (clip : ClipView) → (straight_clip clip).version ≡ STRAIGHT }
    ensures shown { (clip : ClipView) → IsClip clip → AreBytes clip.bytes → prepared_clip (straight_clip clip) ≡ prepared_clip clip }
{}

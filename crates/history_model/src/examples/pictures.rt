//! Pixels of a channel: pictures brought to the raster, transitions, placing and composition.
#![tactic(auto, unfolding(crate::specs::stage::Acts::acts, crate::specs::pictures::Frame::frame_pixel))]

ghost use Rattle.std.specs.Prelude.{◌≡◌, ◌∷◌, ◌++◌, [], pos, neg_ℤ, codes};
ghost use Rattle.play_types.specs.declared.command.Cmd.TheVariants.{ClearLayer, LoadBg};
ghost use Rattle.play_types.specs.declared.event.Event.TheVariants.{Tick};
ghost use Rattle.play_types.specs.declared.setting.Prop.TheVariants.{Clip, Fill, Keyer, Opacity};
ghost use Rattle.play_types.specs.declared.transition.Curve.TheVariants.{EaseInCubic, EaseInQuad, EaseOutQuad};
ghost use Rattle.play_types.specs.declared.transition.Kind.TheVariants.{Mix, Push, Slide, Wipe};
ghost use Rattle.history_model.specs.pictures.Easing.{eased};
ghost use Rattle.history_model.specs.pictures.Placing.{floor_div};
ghost use Rattle.history_model.specs.Worked.{ask, at, automatic, blue, by, clip, curved, leftward, looped, number, numbers, one, plays, red, rightward, row_text, sets, ticking};

/// Before the first act a frame is transparent, and after the last content is gone it is so again.
pub fn nothing_is_transparent()
    ensures empty { row_text (one 2) 1 [] ≡ codes "0000000000000000" }
    ensures cleared { row_text (one 1) 1 (plays (at 1 0) red ∷ Tick ∷ ask (ClearLayer (at 1 0)) ∷ []) ≡ codes "00000000" }
{}

/// A picture of two columns on four columns, and one of four columns on two.
pub fn scaling_to_the_raster()
    ensures wider { row_text (one 4) 1 (plays (at 1 0) (clip 2 1) ∷ []) ≡ codes "ffffffffffffffff808080ff808080ff" }
    ensures narrower { row_text (one 2) 1 (plays (at 1 0) (clip 0 1) ∷ []) ≡ codes "000014ff000028ff" }
{}

/// A clip goes on by one frame a tick, ends on its last frame, and begins anew if it is looped. A frame that the clip does not
/// have, and a clip that does not exist, are transparent.
pub fn frames_of_a_clip()
    ensures second { row_text (one 1) 1 (plays (at 1 0) (clip 1 3) ∷ ticking 1) ≡ codes "000050ff" }
    ensures last { row_text (one 1) 1 (plays (at 1 0) (clip 1 3) ∷ ticking 7) ≡ codes "0000a0ff" }
    ensures looped { row_text (one 1) 1 (plays (at 1 0) (looped (clip 1 3)) ∷ ticking 7) ≡ codes "000050ff" }
    ensures beyond { row_text (one 1) 1 (plays (at 1 0) (clip 1 5) ∷ ticking 3) ≡ codes "00000000" }
    ensures missing { row_text (one 1) 1 (plays (at 1 0) (clip 9 3) ∷ []) ≡ codes "00000000" }
{}

/// The colours of a clip of version 1 are lowered to their alpha, and those of version 2 are multiplied by it.
pub fn versions_of_clips()
    ensures lowered { row_text (one 2) 1 (plays (at 1 0) (clip 4 1) ∷ []) ≡ codes "0000408000008080" }
    ensures multiplied { row_text (one 2) 1 (plays (at 1 0) (clip 5 1) ∷ []) ≡ codes "0000408000008080" }
{}

/// A mix at step 1 of 2, and after it.
pub fn mixing()
    ensures { let history = plays (at 1 1) blue ∷ plays (at 1 1) (by red (rightward Mix 2)) ∷ [] in
        (row_text (one 1) 1 history ≡ codes "800080ff")
        × (row_text (one 1) 1 (history ++ ticking 1) ≡ codes "0000ffff") }
{}

/// A mix along a curve: the step of 1,000,000 that is drawn, which is at least 1, and after it the last one. A linear one is
/// drawn at its own step.
pub fn eased_steps()
    ensures linear { eased (rightward Mix 2) 1 ≡ (rightward Mix 2, 1) }
    ensures half { eased (curved EaseOutQuad (leftward Wipe 2)) 1 ≡ (leftward Wipe 1000000, 750000) }
    ensures least { eased (curved EaseInCubic (rightward Mix 1000)) 1 ≡ (rightward Mix 1000000, 1) }
    ensures last { eased (curved EaseInQuad (rightward Mix 2)) 2 ≡ (rightward Mix 1000000, 1000000) }
{}

/// A mix along a curve at step 1 of 2, where it is at three quarters, and after it.
pub fn eased_mixing()
    ensures { let history = plays (at 1 0) blue ∷ plays (at 1 0) (by red (curved EaseOutQuad (rightward Mix 2))) ∷ [] in
        (row_text (one 1) 1 history ≡ codes "4000bfff")
        × (row_text (one 1) 1 (history ++ ticking 1) ≡ codes "0000ffff") }
{}

/// A wipe along a curve at step 2 of 4, where it is at a quarter of four columns.
pub fn eased_wiping()
    ensures { row_text (one 4) 1 (plays (at 1 0) blue ∷ plays (at 1 0) (by red (curved EaseInQuad (rightward Wipe 4))) ∷ Tick ∷ [])
        ≡ codes "0000ffffff0000ffff0000ffff0000ff" }
{}

/// A wipe at step 1 of 4 over four columns, rightward and leftward.
pub fn wiping()
    ensures right { row_text (one 4) 1 (plays (at 1 0) blue ∷ plays (at 1 0) (by red (rightward Wipe 4)) ∷ [])
        ≡ codes "0000ffffff0000ffff0000ffff0000ff" }
    ensures left { row_text (one 4) 1 (plays (at 1 0) blue ∷ plays (at 1 0) (by red (leftward Wipe 4)) ∷ [])
        ≡ codes "ff0000ffff0000ffff0000ff0000ffff" }
{}

/// A push at step 1 of 4: the old picture of four columns moves with the new one.
pub fn pushing()
    ensures left { row_text (one 4) 1 (plays (at 1 0) (clip 0 1) ∷ plays (at 1 0) (by blue (leftward Push 4)) ∷ [])
        ≡ codes "000014ff00001eff000028ffff0000ff" }
    ensures right { row_text (one 4) 1 (plays (at 1 0) (clip 0 1) ∷ plays (at 1 0) (by blue (rightward Push 4)) ∷ [])
        ≡ codes "ff0000ff00000aff000014ff00001eff" }
{}

/// A slide at step 2 of 4: the new picture of four columns moves over the old one, which stays.
pub fn sliding()
    ensures right { row_text (one 4) 1 (plays (at 1 0) blue ∷ plays (at 1 0) (by (clip 0 1) (rightward Slide 4)) ∷ Tick ∷ [])
        ≡ codes "00001eff000028ffff0000ffff0000ff" }
    ensures left { row_text (one 4) 1 (plays (at 1 0) blue ∷ plays (at 1 0) (by (clip 0 1) (leftward Slide 4)) ∷ Tick ∷ [])
        ≡ codes "ff0000ffff0000ff00000aff000014ff" }
{}

/// A transition during a transition takes the foreground alone as its old picture, and one over nothing comes from a
/// transparent picture.
pub fn what_a_transition_replaces()
    ensures during { row_text (one 1) 1
        (plays (at 1 0) blue ∷ plays (at 1 0) (by red (rightward Mix 4)) ∷ plays (at 1 0) (by blue (rightward Mix 2)) ∷ [])
        ≡ codes "800080ff" }
    ensures nothing { row_text (one 1) 1 (plays (at 1 0) (by red (rightward Mix 2)) ∷ []) ≡ codes "00008080" }
{}

/// Red at half opacity over blue, and alone.
pub fn half_opacity()
    ensures over { row_text (one 1) 1 (plays (at 1 0) blue ∷ plays (at 1 1) red ∷ sets (at 1 1) Opacity (number (pos 500000)) ∷ [])
        ≡ codes "7f0080ff" }
    ensures alone { row_text (one 1) 1 (plays (at 1 1) red ∷ sets (at 1 1) Opacity (number (pos 500000)) ∷ []) ≡ codes "00008080" }
{}

/// A quotient is rounded down, also for a negative number or divisor.
pub fn rounding_down()
    ensures positive { floor_div (pos 7) (pos 2) ≡ pos 3 }
    ensures number { floor_div (neg_ℤ (pos 7)) (pos 2) ≡ neg_ℤ (pos 4) }
    ensures divisor { floor_div (pos 7) (neg_ℤ (pos 2)) ≡ neg_ℤ (pos 4) }
    ensures both { floor_div (neg_ℤ (pos 7)) (neg_ℤ (pos 2)) ≡ pos 3 }
{}

/// A picture of four columns filled to the right half, to nothing, and mirrored by a negative scale.
pub fn filling()
    ensures half { row_text (one 4) 1
        (plays (at 1 1) (clip 0 1) ∷ sets (at 1 1) Fill (numbers (pos 500000) (pos 0) (pos 500000) (pos 1000000)) ∷ [])
        ≡ codes "0000000000000000000014ff000028ff" }
    ensures nothing { row_text (one 4) 1
        (plays (at 1 1) (clip 0 1) ∷ sets (at 1 1) Fill (numbers (pos 0) (pos 0) (pos 0) (pos 1000000)) ∷ [])
        ≡ codes "00000000000000000000000000000000" }
    ensures mirrored { let fill = numbers (pos 1000000) (pos 0) (neg_ℤ (pos 1000000)) (pos 1000000) in
        row_text (one 4) 1 (plays (at 1 1) (clip 0 1) ∷ sets (at 1 1) Fill fill ∷ [])
        ≡ codes "000028ff00001eff000014ff00000aff" }
{}

/// A clip window keeps the two columns in the middle and does not move the picture, and one without width keeps no column.
pub fn clipping()
    ensures middle { row_text (one 4) 1
        (plays (at 1 0) (clip 0 1) ∷ sets (at 1 0) Clip (numbers (pos 250000) (pos 0) (pos 500000) (pos 1000000)) ∷ [])
        ≡ codes "00000000000014ff00001eff00000000" }
    ensures nothing { row_text (one 4) 1
        (plays (at 1 0) (clip 0 1) ∷ sets (at 1 0) Clip (numbers (pos 0) (pos 0) (pos 0) (pos 1000000)) ∷ [])
        ≡ codes "00000000000000000000000000000000" }
{}

/// A keyer is not shown, and keys the next drawn layer above it by its red.
pub fn keying()
    ensures keyed { row_text (one 4) 1
        (plays (at 1 1) (clip 2 1) ∷ sets (at 1 1) Fill (numbers (pos 0) (pos 0) (pos 500000) (pos 1000000))
        ∷ sets (at 1 1) Keyer (number (pos 1000000)) ∷ plays (at 1 2) blue ∷ [])
        ≡ codes "ff0000ff800000800000000000000000" }
    ensures alone { row_text (one 1) 1 (plays (at 1 1) red ∷ sets (at 1 1) Keyer (number (pos 1000000)) ∷ []) ≡ codes "00000000" }
{}

/// A keyer keys one layer: not a further layer above that one, and not another keyer.
pub fn keying_once()
    ensures further { row_text (one 1) 1
        (plays (at 1 1) blue ∷ sets (at 1 1) Keyer (number (pos 1000000)) ∷ plays (at 1 2) red ∷ plays (at 1 3) blue ∷ [])
        ≡ codes "ff0000ff" }
    ensures keyers { row_text (one 1) 1
        (plays (at 1 1) blue ∷ sets (at 1 1) Keyer (number (pos 1000000))
        ∷ plays (at 1 2) red ∷ sets (at 1 2) Keyer (number (pos 1000000)) ∷ plays (at 1 3) blue ∷ [])
        ≡ codes "ff0000ff" }
{}

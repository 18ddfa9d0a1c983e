//! Samples of a channel: left and right of each pair.
#![tactic(auto, unfolding(crate::specs::pictures::Frame::frame_pixel, crate::specs::pictures::Sound::frame_sample))]

ghost use Rattle.std.specs.Prelude.{◌≡◌, ◌∷◌, ◌++◌, [], pos, neg_ℤ, replicate};
ghost use Rattle.play_types.specs.declared.event.Event.TheVariants.{Tick};
ghost use Rattle.play_types.specs.declared.setting.Prop.TheVariants.{Keyer, Opacity, Volume};
ghost use Rattle.play_types.specs.declared.transition.Curve.TheVariants.{EaseInQuad};
ghost use Rattle.play_types.specs.declared.transition.Kind.TheVariants.{Wipe};
ghost use Rattle.history_model.specs.Worked.{at, by, clip, curved, number, plays, red, rightward, route, samples_of, sets, three, ticking};

/// A clip with fewer pairs than the channel is silent in the others, and a colour is silent.
pub fn clip_sound()
    ensures clip { samples_of three 1 (plays (at 1 0) (clip 3 1) ∷ [])
        ≡ pos 1000 ∷ neg_ℤ (pos 1000) ∷ pos 32767 ∷ neg_ℤ (pos 32768) ∷ pos 0 ∷ pos 0 ∷ [] }
    ensures colour { samples_of three 1 (plays (at 1 0) red ∷ []) ≡ replicate 6 (pos 0) }
    ensures nothing { samples_of three 1 [] ≡ replicate 6 (pos 0) }
{}

/// Two layers, the lower one at half volume: the sum is held to 16 bits.
pub fn half_volume_and_clamping()
    ensures { samples_of three 1 (plays (at 1 0) (clip 3 1) ∷ sets (at 1 0) Volume (number (pos 500000)) ∷ plays (at 1 1) (clip 3 1) ∷ [])
        ≡ pos 1500 ∷ neg_ℤ (pos 1500) ∷ pos 32767 ∷ neg_ℤ (pos 32768) ∷ pos 0 ∷ pos 0 ∷ [] }
{}

/// A volume's quotient is taken toward zero. A keyer and an opacity do not change the sound.
pub fn volume()
    ensures third { samples_of three 1 (plays (at 1 0) (clip 3 1) ∷ sets (at 1 0) Volume (number (pos 333333)) ∷ [])
        ≡ pos 333 ∷ neg_ℤ (pos 333) ∷ pos 10922 ∷ neg_ℤ (pos 10922) ∷ pos 0 ∷ pos 0 ∷ [] }
    ensures keyer_and_opacity { samples_of three 1
        (plays (at 1 0) (clip 3 1) ∷ sets (at 1 0) Keyer (number (pos 1000000)) ∷ sets (at 1 0) Opacity (number (pos 0)) ∷ [])
        ≡ pos 1000 ∷ neg_ℤ (pos 1000) ∷ pos 32767 ∷ neg_ℤ (pos 32768) ∷ pos 0 ∷ pos 0 ∷ [] }
{}

/// A wipe mixes the sound: at step 1 of 4 three quarters of the old one are left, toward zero.
pub fn sound_of_a_transition()
    ensures { samples_of three 1 (plays (at 1 0) (clip 3 1) ∷ plays (at 1 0) (by red (rightward Wipe 4)) ∷ [])
        ≡ pos 750 ∷ neg_ℤ (pos 750) ∷ pos 24575 ∷ neg_ℤ (pos 24576) ∷ pos 0 ∷ pos 0 ∷ [] }
{}

/// A wipe along a curve mixes the sound at the step where the curve is: at step 1 of 4 fifteen sixteenths of the old one are
/// left, toward zero.
pub fn sound_of_an_eased_transition()
    ensures { samples_of three 1
        (plays (at 1 0) (clip 3 1) ∷ plays (at 1 0) (by red (curved EaseInQuad (rightward Wipe 4))) ∷ [])
        ≡ pos 937 ∷ neg_ℤ (pos 937) ∷ pos 30719 ∷ neg_ℤ (pos 30720) ∷ pos 0 ∷ pos 0 ∷ [] }
{}

/// A channel route gives the sound of the tick before, with the volumes that it had.
pub fn sound_of_a_route()
    ensures first { samples_of three 2 (plays (at 1 0) (clip 3 1) ∷ plays (at 2 0) (route 1) ∷ []) ≡ replicate 6 (pos 0) }
    ensures second { samples_of three 2
        (plays (at 1 0) (clip 3 1) ∷ sets (at 1 0) Volume (number (pos 500000)) ∷ plays (at 2 0) (route 1) ∷ Tick ∷ [])
        ≡ pos 500 ∷ neg_ℤ (pos 500) ∷ pos 16383 ∷ neg_ℤ (pos 16384) ∷ pos 0 ∷ pos 0 ∷ [] }
{}

//! Worked examples of the definitions in `specs/`, which the checker computes. Each is the contract of a function that
//! does nothing.
#![tactic(auto, unfolding(crate::proofs::OnLiterals::documents_on_literals))]

ghost use Rattle.std.specs.Prelude.{◌≡◌, ◌∷◌, ◌++◌, [], codes, neg_ℤ, None, pos, Some};
ghost use Rattle.play_types.specs.declared.command.Cmd.TheVariants.{Pause, PlayTake};
ghost use Rattle.play_types.specs.declared.event.Event.TheVariants.{Stop, Tick};
ghost use Rattle.play_types.specs.declared.setting.Prop.TheVariants.{Fill, Keyer, Opacity, Volume};
ghost use Rattle.play_types.specs.declared.transition.Kind.TheVariants.{Mix};
ghost use Rattle.history_model.specs.Worked.{ask, at, batch, blue, by, clip, looped, number, numbers, plays, red, rightward, route, sets, ticking};
ghost use Rattle.history_model.specs.scripts.History.{server};
ghost use Rattle.view_status.specs.Levels.{levels_of};
ghost use Rattle.view_status.specs.Timecode.{timecode_text};
ghost use Rattle.view_status.specs.declared.events.TheConstants.{MAX_EVENTS};
ghost use Rattle.view_status.specs.Worked.{events_text, layer_text, levels, mixer_text, status_text, ten_bars};

/// Hours may have more than two digits, and so may frames at a high rate.
pub fn timecodes()
    ensures none { timecode_text 25 0 ≡ codes "00:00:00:00" }
    ensures below_a_second { timecode_text 25 24 ≡ codes "00:00:00:24" }
    ensures second { timecode_text 25 25 ≡ codes "00:00:01:00" }
    ensures hour { timecode_text 25 90061 ≡ codes "01:00:02:11" }
    ensures hundred_hours { timecode_text 50 18000000 ≡ codes "100:00:00:00" }
    ensures high_rate { timecode_text 240 239 ≡ codes "00:00:00:239" }
{}

/// The lowest sample is louder than the highest. Three bytes are no pair.
pub fn levels_of_sounds()
    ensures silence { levels_of [] ≡ levels 0 0 }
    ensures both { levels_of (0xe8 ∷ 3 ∷ 0x18 ∷ 0xfc ∷ []) ≡ levels 1000 1000 }
    ensures greatest { levels_of (0xff ∷ 0x7f ∷ 0 ∷ 0x80 ∷ 0xe8 ∷ 3 ∷ 0x18 ∷ 0xfc ∷ []) ≡ levels 32767 32768 }
    ensures left_alone { levels_of (1 ∷ 0 ∷ 0 ∷ 0 ∷ 2 ∷ 0 ∷ 0 ∷ 0 ∷ []) ≡ levels 2 0 }
    ensures cut_short { levels_of (1 ∷ 0 ∷ 0 ∷ 0 ∷ 2 ∷ 0 ∷ 9 ∷ []) ≡ levels 1 0 }
{}

/// Only properties that are not the default are written, in their order, whenever they were set.
pub fn mixer_properties()
    ensures default { mixer_text [] ≡ codes "{}" }
    ensures half { mixer_text (sets (at 1 5) Opacity (number (pos 500000)) ∷ []) ≡ codes "{\"OPACITY\":[500000]}" }
    ensures again { mixer_text (sets (at 1 5) Opacity (number (pos 500000)) ∷ sets (at 1 5) Opacity (number (pos 1000000)) ∷ []) ≡ codes "{}" }
    ensures other { mixer_text (sets (at 1 6) Opacity (number (pos 500000)) ∷ []) ≡ codes "{}" }
    ensures order { mixer_text (sets (at 1 5) Keyer (number (pos 1000000)) ∷ sets (at 1 5) Fill (numbers (neg_ℤ (pos 250000)) (pos 0) (pos 500000) (pos 500000)) ∷ [])
        ≡ codes "{\"FILL\":[-250000,0,500000,500000],\"KEYER\":[1000000]}" }
{}

/// A clip that is played from its frame 10 on, after three ticks, and a colour that comes in by a mix.
pub fn layers()
    ensures clip { layer_text (plays (at 1 5) ten_bars ∷ ticking 3)
        ≡ codes "{\"layer\":5,\"producer\":\"BARS\",\"frame\":13,\"seek\":10,\"length\":10,\"left\":6,\"time\":\"00:00:00:03\",\"time_left\":\"00:00:00:06\",\"looped\":false,\"paused\":false,\"transition\":null,\"mixer\":{}}" }
    ensures colour { layer_text (plays (at 1 5) (by red (rightward Mix 4)) ∷ sets (at 1 5) Volume (number (pos 0)) ∷ ticking 1)
        ≡ codes "{\"layer\":5,\"producer\":\"#FFFF0000\",\"frame\":0,\"seek\":0,\"length\":0,\"left\":0,\"time\":\"00:00:00:00\",\"time_left\":\"00:00:00:00\",\"looped\":false,\"paused\":false,\"transition\":{\"kind\":\"MIX\",\"step\":1,\"duration\":4},\"mixer\":{\"VOLUME\":[0]}}" }
{}

/// The status before the first event, and after a tick and a stop, with levels.
pub fn statuses()
    ensures empty { status_text None []
        ≡ codes "{\"ticks\":0,\"timecode\":\"00:00:00:00\",\"rate\":25,\"events\":0,\"ended\":false,\"channels\":[{\"channel\":1,\"width\":4,\"height\":2,\"levels\":null,\"layers\":[]}]}" }
    ensures ended { status_text (Some (levels 3 5 ∷ [])) (Tick ∷ Stop server ∷ [])
        ≡ codes "{\"ticks\":1,\"timecode\":\"00:00:00:01\",\"rate\":25,\"events\":2,\"ended\":true,\"channels\":[{\"channel\":1,\"width\":4,\"height\":2,\"levels\":[3,5],\"layers\":[]}]}" }
{}

/// Ticks are not listed, and count in the positions.
pub fn events()
    ensures all { events_text 0 (Tick ∷ Tick ∷ ask (Pause (at 1 5)) ∷ Tick ∷ Stop server ∷ [])
        ≡ codes "[{\"position\":2,\"tick\":2,\"timecode\":\"00:00:00:02\",\"text\":\"1.1 PAUSE 1-5\\n\"},{\"position\":4,\"tick\":3,\"timecode\":\"00:00:00:03\",\"text\":\"X\\n\"}]" }
    ensures later { events_text 3 (Tick ∷ Tick ∷ ask (Pause (at 1 5)) ∷ Tick ∷ Stop server ∷ [])
        ≡ codes "[{\"position\":4,\"tick\":3,\"timecode\":\"00:00:00:03\",\"text\":\"X\\n\"}]" }
    ensures none { events_text 0 (Tick ∷ []) ≡ codes "[]" }
{}

/// The most events of a document, as a number.
pub fn limits()
    ensures { MAX_EVENTS ≡ 1000 }
{}

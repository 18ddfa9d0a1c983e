//! Worked lines. Each function does nothing, and its contract says what lines ask for, or why they are refused. There
//! are two channels, a clip THREE of three frames and an unreadable clip BAD.
#![tactic(auto, unfolding(play_types::specs::Words::is_word, play_types::specs::Words::is_same_name, history_model::specs::commands::Places::area_of, history_model::specs::commands::Options::options_at, history_model::specs::commands::Producer::producer_of, history_model::specs::commands::Producer::take_at, history_model::specs::commands::Mixer::numbers_of, history_model::specs::commands::Mixer::timing_at, history_model::specs::commands::Mixer::mixer, play_types::specs::Words::name_of, play_types::specs::Words::kind_of, play_types::specs::Words::curve_of, play_types::specs::Words::prop_of, history_model::specs::commands::Command::play, history_model::specs::commands::Command::load_bg, history_model::specs::commands::Command::load, history_model::specs::commands::Command::clear, history_model::specs::commands::Command::swap, history_model::specs::commands::Recording::add_file, history_model::specs::commands::Recording::remove_file, history_model::specs::commands::Command::parsed))]

ghost use Rattle.std.specs.Prelude.{◌≡◌, ◌∷◌, [], true, false, Ok, Err, pos, neg_ℤ, codes};
ghost use Rattle.play_types.specs.Transition.{cut};
ghost use Rattle.play_types.specs.declared.command.Cmd.TheVariants as cmd;
ghost use Rattle.play_types.specs.declared.take.Spec.TheVariants.{Colour, RouteChannel, RouteLayer};
ghost use Rattle.play_types.specs.declared.transition.Curve.TheVariants.{EaseInCubic, EaseInQuad, EaseOutCubic, EaseOutQuad};
ghost use Rattle.play_types.specs.declared.transition.Kind.TheVariants.{Mix, Push, Slide, Wipe};
ghost use Rattle.play_types.specs.declared.setting.Prop.TheVariants as prop;
ghost use Rattle.play_types.specs.declared.parsed.Parsed.TheVariants as parsed;
ghost use Rattle.play_types.specs.declared.parsed.Refusal.TheVariants.{Unknown, Channel, Missing, Illegal, NotFound, Unreadable};
ghost use Rattle.play_types.specs.declared.reply.Name.TheVariants as name;
ghost use Rattle.cmd_parse.specs.Worked.{asks, at, curved, does, leftward, plain, rightward, set, set_along, three};

/// Names of commands may be written in any case. A first word that is no such name is refused.
pub fn names()
    ensures capitals { asks "PAUSE 1-7" ≡ does (cmd.Pause (at 1 7)) }
    ensures small { asks "pAuse 1-7" ≡ does (cmd.Pause (at 1 7)) }
    ensures unknown { asks "PAUSES 1-7" ≡ Err Unknown }
    ensures empty { asks "" ≡ Err Unknown }
    ensures unknown_first { asks "1-7" ≡ Err Unknown }
{}

/// The order of the refusals: too few words, the places, the other words, the producer.
pub fn order()
    ensures few { asks "PLAY" ≡ Err (Missing name.Play) }
    ensures few_before_channel { asks "LOADBG 9-0" ≡ Err (Missing name.LoadBg) }
    ensures channel { asks "PLAY 9-0 RED" ≡ Err (Channel name.Play) }
    ensures channel_before_layer { asks "PLAY 9-x RED" ≡ Err (Channel name.Play) }
    ensures layer { asks "PLAY 1-x RED" ≡ Err (Illegal name.Play 1) }
    ensures layer_before_words { asks "PLAY 1-10000 #1 SEEK" ≡ Err (Illegal name.Play 1) }
    ensures words_before_producer { asks "PLAY 1-0 NONE LOOP LOOP" ≡ Err (Illegal name.Play 4) }
    ensures end_before_producer { asks "PLAY 1-0 NONE SEEK" ≡ Err (Missing name.Play) }
    ensures no_clip { asks "PLAY 1-0 LOOP" ≡ Err (NotFound name.Play) }
    ensures unreadable { asks "PLAY 1-0 bad SEEK 3" ≡ Err (Unreadable name.Play) }
    ensures past_the_end { asks "PLAY 1-0 THREE SEEK 3" ≡ Err (Illegal name.Play 2) }
    ensures first_place { asks "SWAP 9 9-x" ≡ Err (Channel name.Swap) }
    ensures second_place { asks "SWAP 1 9" ≡ Err (Channel name.Swap) }
    ensures mixed_places { asks "SWAP 1 1-0" ≡ Err (Illegal name.Swap 2) }
    ensures mixed_before_words { asks "SWAP 1-0 1 x" ≡ Err (Illegal name.Swap 2) }
{}

/// A place is a channel, with or without a layer of it.
pub fn places()
    ensures no_layer { asks "STOP 2" ≡ does (cmd.StopLayer (at 2 0)) }
    ensures zeros { asks "STOP 02-0009999" ≡ does (cmd.StopLayer (at 2 9999)) }
    ensures third { asks "STOP 3" ≡ Err (Channel name.Stop) }
    ensures none { asks "STOP 0" ≡ Err (Channel name.Stop) }
    ensures empty_channel { asks "STOP -1" ≡ Err (Channel name.Stop) }
    ensures empty_layer { asks "STOP 1-" ≡ Err (Illegal name.Stop 1) }
    ensures first_dash { asks "STOP 1-2-3" ≡ Err (Illegal name.Stop 1) }
    ensures surplus { asks "STOP 1 2" ≡ Err (Illegal name.Stop 2) }
    ensures clear_channel { asks "CLEAR 2" ≡ does (cmd.ClearChannel 2) }
    ensures clear_layer { asks "CLEAR 2-0" ≡ does (cmd.ClearLayer (at 2 0)) }
    ensures swap_channels { asks "SWAP 1 2" ≡ does (cmd.SwapChannels 1 2 false) }
    ensures swap_layers { asks "SWAP 1-3 1-4 transforms" ≡ does (cmd.SwapLayers (at 1 3) (at 1 4) true) }
    ensures swap_surplus { asks "SWAP 1 2 TRANSFORMS 1" ≡ Err (Illegal name.Swap 4) }
{}

/// What LOADBG, LOAD and PLAY keep of the options.
pub fn takes()
    ensures load_bg { asks "LOADBG 1-0 RED AUTO LOOP MIX 5 LEFT LINEAR"
        ≡ does (cmd.LoadBg (at 1 0) (plain (Colour 0xFFFF0000) (leftward Mix 5) true)) }
    ensures load { asks "LOAD 1 RED WIPE 5 AUTO" ≡ does (cmd.Load (at 1 0) (plain (Colour 0xFFFF0000) cut false)) }
    ensures play { asks "PLAY 1 RED AUTO SLIDE 7 FROMRIGHT"
        ≡ does (cmd.PlayTake (at 1 0) (plain (Colour 0xFFFF0000) (leftward Slide 7) false)) }
    ensures background { asks "PLAY 2-5" ≡ does (cmd.Play (at 2 5)) }
    ensures clip { asks "PLAY 1 three SEEK 1" ≡ does (cmd.PlayTake (at 1 0) (three 1 2 false)) }
    ensures part_of_a_clip { asks "PLAY 1 THREE LENGTH 1 LOOP" ≡ does (cmd.PlayTake (at 1 0) (three 0 1 true)) }
    ensures long_clip { asks "PLAY 1 THREE SEEK 2 LENGTH 1000000" ≡ does (cmd.PlayTake (at 1 0) (three 2 1 false)) }
    ensures right { asks "PLAY 1 RED PUSH 0 LINEAR FROMLEFT"
        ≡ does (cmd.PlayTake (at 1 0) (plain (Colour 0xFFFF0000) (rightward Push 0) false)) }
    ensures dropped { asks "PLAY 1 RED LOOP SEEK 9 LENGTH 9" ≡ does (cmd.PlayTake (at 1 0) (plain (Colour 0xFFFF0000) cut false)) }
    ensures cut { asks "LOADBG 1 RED CUT 9 LEFT LINEAR AUTO"
        ≡ does (cmd.LoadBg (at 1 0) (plain (Colour 0xFFFF0000) cut true)) }
{}

/// Refusals of options.
pub fn options()
    ensures too_long { asks "LOADBG 1-0 RED CUT 1000001" ≡ Err (Illegal name.LoadBg 4) }
    ensures number_after_curve { asks "LOADBG 1-0 RED CUT LINEAR 5" ≡ Err (Illegal name.LoadBg 5) }
    ensures no_number { asks "LOADBG 1-0 RED MIX" ≡ Err (Missing name.LoadBg) }
    ensures wrong_number { asks "LOADBG 1-0 RED MIX LINEAR" ≡ Err (Illegal name.LoadBg 4) }
    ensures two_directions { asks "LOADBG 1-0 RED MIX 5 LEFT RIGHT" ≡ Err (Illegal name.LoadBg 6) }
    ensures two_curves { asks "LOADBG 1-0 RED MIX 5 LINEAR LEFT LINEAR" ≡ Err (Illegal name.LoadBg 7) }
    ensures two_transitions { asks "LOADBG 1-0 RED CUT AUTO MIX x" ≡ Err (Illegal name.LoadBg 5) }
    ensures repeated { asks "LOADBG 1-0 RED SEEK 1 SEEK" ≡ Err (Illegal name.LoadBg 5) }
    ensures no_frames { asks "LOADBG 1-0 RED LENGTH 0" ≡ Err (Illegal name.LoadBg 4) }
    ensures left_first { asks "LOADBG 1-0 RED SEEK x LOOP LOOP" ≡ Err (Illegal name.LoadBg 4) }
    ensures unknown { asks "LOADBG 1-0 RED LINEAR" ≡ Err (Illegal name.LoadBg 3) }
{}

/// Curves, in any case of their letters and before or after a direction. A cut drops its curve, and a curve of a keyer or an
/// unknown curve is refused.
pub fn curves()
    ensures first { asks "PLAY 1 RED MIX 2 EASEOUTQUAD LEFT"
        ≡ does (cmd.PlayTake (at 1 0) (plain (Colour 0xFFFF0000) (curved EaseOutQuad (leftward Mix 2)) false)) }
    ensures after_the_direction { asks "PLAY 1 RED WIPE 2 fromLeft easeInCubic"
        ≡ does (cmd.PlayTake (at 1 0) (plain (Colour 0xFFFF0000) (curved EaseInCubic (rightward Wipe 2)) false)) }
    ensures alone { asks "LOADBG 1 RED PUSH 2 EaseOutCubic AUTO"
        ≡ does (cmd.LoadBg (at 1 0) (plain (Colour 0xFFFF0000) (curved EaseOutCubic (rightward Push 2)) true)) }
    ensures cut { asks "LOADBG 1 RED CUT 9 EASEINQUAD AUTO" ≡ does (cmd.LoadBg (at 1 0) (plain (Colour 0xFFFF0000) cut true)) }
    ensures two { asks "LOADBG 1-0 RED MIX 5 LINEAR EASEINQUAD" ≡ Err (Illegal name.LoadBg 6) }
    ensures unknown { asks "LOADBG 1-0 RED MIX 5 EASEINSINE" ≡ Err (Illegal name.LoadBg 5) }
    ensures setting { asks "MIXER 1-3 OPACITY .5 25 easeInQuad DEFER"
        ≡ does (set_along EaseInQuad prop.Opacity (pos 500000 ∷ pos 0 ∷ pos 0 ∷ pos 0 ∷ []) 25 true) }
    ensures setting_at_once { asks "MIXER 1-3 VOLUME 1 0 EASEOUTCUBIC"
        ≡ does (set_along EaseOutCubic prop.Volume (pos 1000000 ∷ pos 0 ∷ pos 0 ∷ pos 0 ∷ []) 0 false) }
    ensures unknown_of_a_setting { asks "MIXER 1-3 OPACITY 1 25 EASEINOUTQUAD" ≡ Err (Illegal name.Mixer 5) }
    ensures keyer { asks "MIXER 1-0 KEYER 1 EASEINQUAD" ≡ Err (Illegal name.Mixer 4) }
{}

/// Lines without a curve ask for the linear one.
pub fn without_a_curve()
    ensures transition { asks "PLAY 1-0 #FFFF0000 MIX 12 RIGHT"
        ≡ does (cmd.PlayTake (at 1 0) (plain (Colour 0xFFFF0000) (rightward Mix 12) false)) }
    ensures transition_alone { asks "LOADBG 1-0 #FFFF0000 SLIDE 12 AUTO"
        ≡ does (cmd.LoadBg (at 1 0) (plain (Colour 0xFFFF0000) (rightward Slide 12) true)) }
    ensures setting { asks "MIXER 1-3 OPACITY 0.5 25" ≡ does (set prop.Opacity (pos 500000 ∷ pos 0 ∷ pos 0 ∷ pos 0 ∷ []) 25 false) }
    ensures deferred { asks "MIXER 1-3 OPACITY 0.5 25 DEFER"
        ≡ does (set prop.Opacity (pos 500000 ∷ pos 0 ∷ pos 0 ∷ pos 0 ∷ []) 25 true) }
{}

/// Producers: colours in hexadecimal, routes, named colours and clips, tried in this order.
pub fn producers()
    ensures colour { asks "PLAY 1 #80fF0001" ≡ does (cmd.PlayTake (at 1 0) (plain (Colour 0x80FF0001) cut false)) }
    ensures short_colour { asks "PLAY 1 #010203" ≡ does (cmd.PlayTake (at 1 0) (plain (Colour 0xFF010203) cut false)) }
    ensures no_colour { asks "PLAY 1 #01020" ≡ Err (Illegal name.Play 2) }
    ensures no_digit { asks "PLAY 1 #01020G" ≡ Err (Illegal name.Play 2) }
    ensures route { asks "PLAY 1 Route://2" ≡ does (cmd.PlayTake (at 1 0) (plain (RouteChannel 2) cut false)) }
    ensures layer_route { asks "PLAY 1 route://02-10" ≡ does (cmd.PlayTake (at 1 0) (plain (RouteLayer (at 2 10)) cut false)) }
    ensures no_channel { asks "PLAY 1 route://3" ≡ Err (Illegal name.Play 2) }
    ensures no_layer { asks "PLAY 1 route://2-10000" ≡ Err (Illegal name.Play 2) }
    ensures named { asks "PLAY 1 empty" ≡ does (cmd.PlayTake (at 1 0) (plain (Colour 0) cut false)) }
{}

/// The forms of MIXER.
pub fn mixer()
    ensures asked { asks "MIXER 1-3 FILL" ≡ does (cmd.Value (at 1 3) prop.Fill) }
    ensures set { asks "MIXER 1-3 OPACITY .5 25 LINEAR DEFER"
        ≡ does (set prop.Opacity (pos 500000 ∷ pos 0 ∷ pos 0 ∷ pos 0 ∷ []) 25 true) }
    ensures deferred { asks "MIXER 1-3 VOLUME 1000 DEFER"
        ≡ does (set prop.Volume (pos 1000000000 ∷ pos 0 ∷ pos 0 ∷ pos 0 ∷ []) 0 true) }
    ensures four { asks "MIXER 1-3 CLIP -1000 0 +.25 1 1000000"
        ≡ does (set prop.Clip (neg_ℤ (pos 1000000000) ∷ pos 0 ∷ pos 250000 ∷ pos 1000000 ∷ []) 1000000 false) }
    ensures keyer { asks "MIXER 1-3 KEYER 1" ≡ does (set prop.Keyer (pos 1000000 ∷ pos 0 ∷ pos 0 ∷ pos 0 ∷ []) 0 false) }
    ensures no_number { asks "MIXER 1-0 OPACITY x" ≡ Err (Illegal name.Mixer 3) }
    ensures too_great { asks "MIXER 1-0 OPACITY 2" ≡ Err (Illegal name.Mixer 3) }
    ensures negative { asks "MIXER 1-0 VOLUME -0.000001" ≡ Err (Illegal name.Mixer 3) }
    ensures three_numbers { asks "MIXER 1-0 FILL 0 0 1" ≡ Err (Missing name.Mixer) }
    ensures number_first { asks "MIXER 1-0 OPACITY DEFER" ≡ Err (Illegal name.Mixer 3) }
    ensures curve_first { asks "MIXER 1-0 OPACITY 1 LINEAR" ≡ Err (Illegal name.Mixer 4) }
    ensures surplus { asks "MIXER 1-0 OPACITY 1 5 DEFER LINEAR" ≡ Err (Illegal name.Mixer 6) }
    ensures keyer_word { asks "MIXER 1-0 KEYER 01" ≡ Err (Illegal name.Mixer 3) }
    ensures keyer_duration { asks "MIXER 1-0 KEYER 1 5" ≡ Err (Illegal name.Mixer 4) }
    ensures commit { asks "MIXER 2-5 commit" ≡ does (cmd.CommitMixer 2) }
    ensures reset_channel { asks "MIXER 2 CLEAR" ≡ does (cmd.ResetChannel 2) }
    ensures reset_layer { asks "MIXER 2-0 CLEAR" ≡ does (cmd.ResetLayer (at 2 0)) }
    ensures clear_surplus { asks "MIXER 2 CLEAR 1" ≡ Err (Illegal name.Mixer 3) }
    ensures unknown { asks "MIXER 2 BLUR 1" ≡ Err (Illegal name.Mixer 2) }
    ensures few { asks "MIXER 2" ≡ Err (Missing name.Mixer) }
{}

/// Both sides of the bounds of numbers.
pub fn bounds()
    ensures longest { asks "LOADBG 1 RED MIX 1000000" ≡ does (cmd.LoadBg (at 1 0) (plain (Colour 0xFFFF0000) (rightward Mix 1000000) false)) }
    ensures too_long { asks "LOADBG 1 RED MIX 1000001" ≡ Err (Illegal name.LoadBg 4) }
    ensures greatest_seek { asks "PLAY 1 RED SEEK 1000000" ≡ does (cmd.PlayTake (at 1 0) (plain (Colour 0xFFFF0000) cut false)) }
    ensures great_seek { asks "PLAY 1 RED SEEK 1000001" ≡ Err (Illegal name.Play 4) }
    ensures great_length { asks "PLAY 1 RED LENGTH 1000001" ≡ Err (Illegal name.Play 4) }
    ensures opacity { asks "MIXER 1-3 OPACITY 1" ≡ does (set prop.Opacity (pos 1000000 ∷ pos 0 ∷ pos 0 ∷ pos 0 ∷ []) 0 false) }
    ensures great_opacity { asks "MIXER 1-3 OPACITY 1.000001" ≡ Err (Illegal name.Mixer 3) }
    ensures great_volume { asks "MIXER 1-3 VOLUME 1000.000001" ≡ Err (Illegal name.Mixer 3) }
    ensures small_fill { asks "MIXER 1-3 FILL 0 0 1 -1000.000001" ≡ Err (Illegal name.Mixer 6) }
    ensures great_duration { asks "MIXER 1-3 OPACITY 1 1000001" ≡ Err (Illegal name.Mixer 4) }
{}

/// Commands without a place.
pub fn sessions()
    ensures begin { asks "BEGIN" ≡ Ok parsed.Begin }
    ensures commit { asks "commit" ≡ Ok parsed.Commit }
    ensures discard { asks "DISCARD" ≡ Ok parsed.Discard }
    ensures info { asks "INFO" ≡ does cmd.Info }
    ensures cls { asks "CLS" ≡ Ok parsed.Cls }
    ensures version { asks "VERSION" ≡ Ok parsed.Version }
    ensures version_server { asks "VERSION Server" ≡ Ok parsed.Version }
    ensures bye { asks "BYE" ≡ Ok parsed.Bye }
    ensures kill { asks "KILL" ≡ Ok parsed.Kill }
    ensures info_surplus { asks "INFO x" ≡ Err (Illegal name.Info 1) }
    ensures version_other { asks "VERSION x SERVER" ≡ Err (Illegal name.Version 1) }
    ensures version_surplus { asks "VERSION SERVER x" ≡ Err (Illegal name.Version 2) }
{}

/// ADD and REMOVE. The name of a recording is put in capitals, and is refused if a clip has it, even an unreadable one. The
/// channel is checked before FILE, and FILE before the name.
pub fn recordings()
    ensures add { asks "ADD 1 FILE take_1" ≡ does (cmd.AddFile 1 (codes "TAKE_1")) }
    ensures remove { asks "remove 02 file" ≡ does (cmd.RemoveFile 2) }
    ensures few { asks "ADD 1" ≡ Err (Missing name.Add) }
    ensures no_name { asks "ADD 9 FILE" ≡ Err (Missing name.Add) }
    ensures no_file { asks "REMOVE 9" ≡ Err (Missing name.Remove) }
    ensures channel { asks "ADD 3 DISK x" ≡ Err (Channel name.Add) }
    ensures layer { asks "ADD 1-0 FILE x" ≡ Err (Illegal name.Add 1) }
    ensures layer_before_word { asks "REMOVE 1-0 DISK" ≡ Err (Illegal name.Remove 1) }
    ensures word { asks "REMOVE 1 DISK" ≡ Err (Illegal name.Remove 2) }
    ensures word_before_name { asks "ADD 1 DISK a.b 1" ≡ Err (Illegal name.Add 2) }
    ensures name { asks "ADD 1 FILE a.b 1" ≡ Err (Illegal name.Add 3) }
    ensures clip { asks "ADD 1 FILE three" ≡ Err (Illegal name.Add 3) }
    ensures unreadable_clip { asks "ADD 1 FILE BAD" ≡ Err (Illegal name.Add 3) }
    ensures surplus { asks "ADD 1 FILE x 1" ≡ Err (Illegal name.Add 4) }
    ensures remove_surplus { asks "REMOVE 1 FILE x" ≡ Err (Illegal name.Remove 3) }
{}

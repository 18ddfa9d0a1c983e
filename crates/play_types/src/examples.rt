//! Worked examples of the definitions in `specs/`, which the checker computes. Each is the contract of a function that
//! does nothing.
ghost use Rattle.std.specs.Prelude.{◌≡◌, ◌≢◌, ◌∷◌, ◌++◌, [], pos, neg_ℤ, true, false, Some, None, codes, replicate};
ghost use Rattle.play_types.specs.ClipFile.{IsClip, IsClipFile, clip_bytes};
ghost use Rattle.play_types.specs.Columns.{New, Old, Both, pick};
ghost use Rattle.play_types.specs.Config.{IsConfig};
ghost use Rattle.play_types.specs.Curve.{along};
ghost use Rattle.play_types.specs.Geometry.{IsSize};
ghost use Rattle.play_types.specs.History.{IsHistory, held, stop_at, ticks};
ghost use Rattle.play_types.specs.Place.{IsPlace};
ghost use Rattle.play_types.specs.Playhead.{head};
ghost use Rattle.play_types.specs.RecNames.{rec_name_of};
ghost use Rattle.play_types.specs.Setting.{AreValues};
ghost use Rattle.play_types.specs.Take.{IsTake, take_of};
ghost use Rattle.play_types.specs.Transition.{IsTrans, cut};
ghost use Rattle.play_types.specs.Worked.{config};
ghost use Rattle.play_types.specs.declared.clip.TheConstants.{MAX_FRAMES, MULTIPLIED, STRAIGHT};
ghost use Rattle.play_types.specs.declared.command.TheConstants.{MAX_BATCH_COMMANDS};
ghost use Rattle.play_types.specs.declared.config.TheConstants.{MAX_CONNECTIONS, MAX_JOURNAL_COMMANDS, MAX_RATE};
ghost use Rattle.play_types.specs.declared.event.TheConstants.{MAX_TICKS};
ghost use Rattle.play_types.specs.declared.geometry.TheConstants.{MAX_PAIRS, MAX_SIDE};
ghost use Rattle.play_types.specs.declared.media.TheConstants.{MAX_MEDIA_NAMES};
ghost use Rattle.play_types.specs.declared.place.TheConstants.{MAX_CHANNELS, MAX_LAYER, MAX_LIVE_LAYERS};
ghost use Rattle.play_types.specs.declared.rec_name.TheConstants.{MAX_REC_NAME_BYTES};
ghost use Rattle.play_types.specs.declared.setting.TheConstants.{MAX_MICROS, MAX_WAITING_SETTINGS, MICROS_PER_UNIT};
ghost use Rattle.play_types.specs.declared.transition.TheConstants.{EASED_STEPS, MAX_DURATION};
ghost use Rattle.play_types.specs.declared.transition.Curve.TheVariants.{EaseInCubic, EaseInQuad, EaseOutCubic, EaseOutQuad, Linear};

use crate::command::Cmd;
use crate::event::{Event, Tag};
use crate::setting::Prop;
use crate::take::Spec;
use crate::transition::Kind;

/// A clip that is played from frame 2 on, 5 frames of it.
pub fn playhead_of_a_clip()
    ensures first { head (take_of (Spec.Clip 7) false 2 5 cut false) 0 ≡ 2 }
    ensures stays_on_its_last_frame { head (take_of (Spec.Clip 7) false 2 5 cut false) 9 ≡ 6 }
    ensures begins_anew_where_looped { head (take_of (Spec.Clip 7) true 2 5 cut false) 5 ≡ 2 }
    ensures goes_on_where_looped { head (take_of (Spec.Clip 7) true 2 5 cut false) 13 ≡ 5 }
    ensures colour_has_none { head (take_of (Spec.Colour 4278190335) true 2 5 cut false) 9 ≡ 0 }
{}

/// A value from 1 to 0 over four ticks, in millionths, and values over three ticks, whose thirds are rounded toward the
/// value at the start.
pub fn tween_over_four_ticks()
    ensures before { along Linear (pos 1000000) (pos 0) 0 4 ≡ pos 1000000 }
    ensures one { along Linear (pos 1000000) (pos 0) 1 4 ≡ pos 750000 }
    ensures two { along Linear (pos 1000000) (pos 0) 2 4 ≡ pos 500000 }
    ensures last { along Linear (pos 1000000) (pos 0) 4 4 ≡ pos 0 }
    ensures after { along Linear (pos 1000000) (pos 0) 9 4 ≡ pos 0 }
    ensures takes_no_time { along Linear (pos 1000000) (pos 0) 0 0 ≡ pos 0 }
    ensures down_toward_zero { along Linear (pos 0) (neg_ℤ (pos 10)) 1 3 ≡ neg_ℤ (pos 3) }
    ensures up_toward_zero { along Linear (neg_ℤ (pos 10)) (pos 0) 1 3 ≡ neg_ℤ (pos 7) }
{}

/// A value from 0 to 1 over four ticks with each curve, in millionths.
pub fn curves_over_four_ticks()
    ensures in_quad_one { along EaseInQuad (pos 0) (pos 1000000) 1 4 ≡ pos 62500 }
    ensures in_quad_two { along EaseInQuad (pos 0) (pos 1000000) 2 4 ≡ pos 250000 }
    ensures in_quad_three { along EaseInQuad (pos 0) (pos 1000000) 3 4 ≡ pos 562500 }
    ensures in_quad_last { along EaseInQuad (pos 0) (pos 1000000) 4 4 ≡ pos 1000000 }
    ensures out_quad_one { along EaseOutQuad (pos 0) (pos 1000000) 1 4 ≡ pos 437500 }
    ensures out_quad_two { along EaseOutQuad (pos 0) (pos 1000000) 2 4 ≡ pos 750000 }
    ensures out_quad_three { along EaseOutQuad (pos 0) (pos 1000000) 3 4 ≡ pos 937500 }
    ensures out_quad_last { along EaseOutQuad (pos 0) (pos 1000000) 4 4 ≡ pos 1000000 }
    ensures in_cubic_one { along EaseInCubic (pos 0) (pos 1000000) 1 4 ≡ pos 15625 }
    ensures in_cubic_two { along EaseInCubic (pos 0) (pos 1000000) 2 4 ≡ pos 125000 }
    ensures in_cubic_three { along EaseInCubic (pos 0) (pos 1000000) 3 4 ≡ pos 421875 }
    ensures in_cubic_last { along EaseInCubic (pos 0) (pos 1000000) 4 4 ≡ pos 1000000 }
    ensures out_cubic_one { along EaseOutCubic (pos 0) (pos 1000000) 1 4 ≡ pos 578125 }
    ensures out_cubic_two { along EaseOutCubic (pos 0) (pos 1000000) 2 4 ≡ pos 875000 }
    ensures out_cubic_three { along EaseOutCubic (pos 0) (pos 1000000) 3 4 ≡ pos 984375 }
    ensures out_cubic_last { along EaseOutCubic (pos 0) (pos 1000000) 4 4 ≡ pos 1000000 }
{}

/// Values with each curve at tick 2 of 3, from 0 down to -10, rounded toward the value at the start, and from 1 to 0 at
/// the last tick but one of 1,000,000.
pub fn curves_round_toward_the_start()
    ensures in_quad { along EaseInQuad (pos 0) (neg_ℤ (pos 10)) 2 3 ≡ neg_ℤ (pos 4) }
    ensures out_quad { along EaseOutQuad (pos 0) (neg_ℤ (pos 10)) 2 3 ≡ neg_ℤ (pos 8) }
    ensures in_cubic { along EaseInCubic (pos 0) (neg_ℤ (pos 10)) 2 3 ≡ neg_ℤ (pos 2) }
    ensures out_cubic { along EaseOutCubic (pos 0) (neg_ℤ (pos 10)) 2 3 ≡ neg_ℤ (pos 9) }
    ensures long_in_cubic { along EaseInCubic (pos 1000000) (pos 0) 999999 1000000 ≡ pos 3 }
    ensures long_out_cubic { along EaseOutCubic (pos 1000000) (pos 0) 999999 1000000 ≡ pos 1 }
{}

/// Pictures of four columns, at step 1 of 4 and at step 2 of 3 of a transition.
pub fn columns_of_transitions()
    ensures mixed { pick Kind.Mix false 1 4 4 3 ≡ Both 3 }
    ensures wiped { pick Kind.Wipe false 1 4 4 0 ≡ New 0 }
    ensures not_yet_wiped { pick Kind.Wipe false 1 4 4 1 ≡ Old 1 }
    ensures wiped_leftward { pick Kind.Wipe true 1 4 4 3 ≡ New 3 }
    ensures pushed_in { pick Kind.Push false 2 3 4 1 ≡ New 3 }
    ensures pushed_on { pick Kind.Push false 2 3 4 2 ≡ Old 0 }
    ensures pushed_in_leftward { pick Kind.Push true 1 4 4 3 ≡ New 0 }
    ensures pushed_on_leftward { pick Kind.Push true 1 4 4 0 ≡ Old 1 }
    ensures slid_in { pick Kind.Slide false 1 4 4 0 ≡ New 3 }
    ensures slid_over { pick Kind.Slide false 1 4 4 1 ≡ Old 1 }
    ensures slid_in_leftward { pick Kind.Slide true 2 3 4 2 ≡ New 0 }
{}

/// A history of two ticks, a command and a batch of two commands.
pub fn numbers_of_a_history(tag: Tag, cmd: Cmd)
    ensures ticks { ticks
        (Event.Tick ∷ Event.Do tag cmd ∷ Event.Tick ∷ Event.Batch tag (cmd ∷ cmd ∷ []) ∷ [])
        ≡ 2 }
    ensures held { held
        (Event.Tick ∷ Event.Do tag cmd ∷ Event.Tick ∷ Event.Batch tag (cmd ∷ cmd ∷ []) ∷ [])
        ≡ 3 }
    ensures a_stop_holds_none { held (Event.Stop tag ∷ []) ≡ 0 }
    ensures stop_at { stop_at (Event.Tick ∷ Event.Do tag cmd ∷ Event.Stop tag ∷ []) ≡ Some 2 }
    ensures not_stopped { stop_at (Event.Tick ∷ Event.Do tag cmd ∷ []) ≡ None }
{}

/// No batch of a history is empty, and nothing follows a stop.
pub fn histories(tag: Tag, cmd: Cmd)
    ensures empty { IsHistory [] }
    ensures stopped { IsHistory (Event.Batch tag (cmd ∷ []) ∷ Event.Tick ∷ Event.Stop tag ∷ []) }
    ensures no_empty_batch { IsHistory (Event.Tick ∷ Event.Batch tag [] ∷ []) → ⊥ }
    ensures nothing_after_a_stop { IsHistory (Event.Stop tag ∷ Event.Tick ∷ []) → ⊥ }
    ensures one_stop { IsHistory (Event.Stop tag ∷ Event.Stop tag ∷ []) → ⊥ }
{}

/// Files of clips of two columns and one row, with one frame and without sound. The versions are 1 and 2.
pub fn clip_files()
    ensures spelled { clip_bytes (record {
      version = 1;
      geometry = record { width = 2; height = 1; pairs = 0 };
      frames = 1;
      bytes = 1 ∷ 2 ∷ 3 ∷ 255 ∷ 4 ∷ 5 ∷ 6 ∷ 255 ∷ [];
    }) ≡ 82 ∷ 67 ∷ 76 ∷ 80 ∷ 0 ∷ 1 ∷ 0 ∷ 0 ∷ 0 ∷ 2 ∷ 0 ∷ 1 ∷ 0 ∷ 0 ∷ 0 ∷ 1 ∷ 0 ∷ 0 ∷ 0 ∷ 0
        ∷ 1 ∷ 2 ∷ 3 ∷ 255 ∷ 4 ∷ 5 ∷ 6 ∷ 255 ∷ [] }
    ensures straight { clip_bytes (record {
      version = 2;
      geometry = record { width = 2; height = 1; pairs = 0 };
      frames = 1;
      bytes = 1 ∷ 2 ∷ 3 ∷ 255 ∷ 4 ∷ 5 ∷ 6 ∷ 255 ∷ [];
    }) ≡ 82 ∷ 67 ∷ 76 ∷ 80 ∷ 0 ∷ 2 ∷ 0 ∷ 0 ∷ 0 ∷ 2 ∷ 0 ∷ 1 ∷ 0 ∷ 0 ∷ 0 ∷ 1 ∷ 0 ∷ 0 ∷ 0 ∷ 0
        ∷ 1 ∷ 2 ∷ 3 ∷ 255 ∷ 4 ∷ 5 ∷ 6 ∷ 255 ∷ [] }
    ensures accepted { IsClipFile
        (82 ∷ 67 ∷ 76 ∷ 80 ∷ 0 ∷ 1 ∷ 0 ∷ 0 ∷ 0 ∷ 2 ∷ 0 ∷ 1 ∷ 0 ∷ 0 ∷ 0 ∷ 1 ∷ 0 ∷ 0 ∷ 0 ∷ 0
        ∷ 1 ∷ 2 ∷ 3 ∷ 255 ∷ 4 ∷ 5 ∷ 6 ∷ 255 ∷ [])
        (record {
          version = 1;
          geometry = record { width = 2; height = 1; pairs = 0 };
          frames = 1;
          bytes = 1 ∷ 2 ∷ 3 ∷ 255 ∷ 4 ∷ 5 ∷ 6 ∷ 255 ∷ [];
        }) }
    ensures version_3 { IsClip (record {
      version = 3;
      geometry = record { width = 1; height = 1; pairs = 0 };
      frames = 1;
      bytes = 1 ∷ 2 ∷ 3 ∷ 4 ∷ [];
    }) → ⊥ }
    ensures a_byte_short { IsClip (record {
      version = 1;
      geometry = record { width = 2; height = 1; pairs = 0 };
      frames = 1;
      bytes = 1 ∷ 2 ∷ 3 ∷ 255 ∷ 4 ∷ 5 ∷ 6 ∷ [];
    }) → ⊥ }
    ensures no_columns { IsClip (record {
      version = 1;
      geometry = record { width = 0; height = 1; pairs = 1 };
      frames = 1;
      bytes = 1 ∷ 2 ∷ 3 ∷ 4 ∷ [];
    }) → ⊥ }
    ensures no_frames { IsClip (record {
      version = 1;
      geometry = record { width = 1; height = 1; pairs = 0 };
      frames = 0;
      bytes = [];
    }) → ⊥ }
{}

/// A place has a channel from 1 to 16 and a layer from 0 to 9999.
pub fn limits_of_places()
    ensures first { IsPlace 1 0 }
    ensures last { IsPlace 16 9999 }
    ensures no_channel { IsPlace 0 0 → ⊥ }
    ensures channel_17 { IsPlace 17 0 → ⊥ }
    ensures layer_10000 { IsPlace 1 10000 → ⊥ }
{}

/// A frame has 1 to 4096 columns and rows, and at most 4096 stereo pairs.
pub fn limits_of_sizes()
    ensures least { IsSize 1 1 0 }
    ensures greatest { IsSize 4096 4096 4096 }
    ensures no_column { IsSize 0 1 0 → ⊥ }
    ensures no_row { IsSize 1 0 0 → ⊥ }
    ensures columns { IsSize 4097 1 0 → ⊥ }
    ensures rows { IsSize 1 4097 0 → ⊥ }
    ensures pairs { IsSize 1 1 4097 → ⊥ }
{}

/// A take plays at least one of the first 1,000,000 frames of a clip, and a transition lasts at most 1,000,000 ticks.
pub fn limits_of_takes()
    ensures last_frame { IsTake (Spec.Clip 7) 999999 1 }
    ensures no_frame { IsTake (Spec.Clip 7) 0 0 → ⊥ }
    ensures frame_too_far { IsTake (Spec.Clip 7) 1000000 1 → ⊥ }
    ensures no_clip { IsTake (Spec.Colour 4278190335) 4 0 }
    ensures long_mix { IsTrans Kind.Mix 1000000 Linear true }
    ensures too_long_a_mix { IsTrans Kind.Mix 1000001 Linear true → ⊥ }
    ensures cut_with_a_duration { IsTrans Kind.Cut 1 Linear false → ⊥ }
{}

/// The values of mixer settings, in millionths: an opacity is 0 to 1, a volume 0 to 1000, each number of a fill is within
/// -1000 to 1000, and a keyer is 0 or 1. Numbers that the property does not use may be any.
pub fn limits_of_settings()
    ensures opacity { AreValues Prop.Opacity (pos 1000000 ∷ pos 2000000 ∷ pos 0 ∷ pos 0 ∷ []) }
    ensures opacity_above_1 { AreValues Prop.Opacity (pos 1000001 ∷ pos 0 ∷ pos 0 ∷ pos 0 ∷ []) → ⊥ }
    ensures opacity_below_0 { AreValues Prop.Opacity (neg_ℤ (pos 1) ∷ pos 0 ∷ pos 0 ∷ pos 0 ∷ []) → ⊥ }
    ensures volume { AreValues Prop.Volume (pos 1000000000 ∷ pos 0 ∷ pos 0 ∷ pos 0 ∷ []) }
    ensures volume_above_1000 { AreValues Prop.Volume (pos 1000000001 ∷ pos 0 ∷ pos 0 ∷ pos 0 ∷ []) → ⊥ }
    ensures fill { AreValues Prop.Fill (pos 0 ∷ pos 1000000000 ∷ pos 0 ∷ neg_ℤ (pos 1000000000) ∷ []) }
    ensures fill_below { AreValues Prop.Fill (pos 0 ∷ pos 0 ∷ pos 0 ∷ neg_ℤ (pos 1000000001) ∷ []) → ⊥ }
    ensures clip_above { AreValues Prop.Clip (pos 0 ∷ pos 1000000001 ∷ pos 0 ∷ pos 0 ∷ []) → ⊥ }
    ensures keyer { AreValues Prop.Keyer (pos 1000000 ∷ pos 0 ∷ pos 0 ∷ pos 0 ∷ []) }
    ensures keyer_between { AreValues Prop.Keyer (pos 1 ∷ pos 0 ∷ pos 0 ∷ pos 0 ∷ []) → ⊥ }
{}

/// A configuration has a rate from 1 to 240, 1 to 64 connection workers, a limit of 1 to 16,777,216 commands for its history,
/// and 1 to 16 channels.
pub fn limits_of_configurations()
    ensures least { IsConfig (config 1 1 1 1) }
    ensures greatest { IsConfig (config 240 64 16777216 16) }
    ensures no_rate { IsConfig (config 0 1 1 1) → ⊥ }
    ensures rate_241 { IsConfig (config 241 1 1 1) → ⊥ }
    ensures no_connection { IsConfig (config 1 0 1 1) → ⊥ }
    ensures connection_65 { IsConfig (config 1 65 1 1) → ⊥ }
    ensures no_command { IsConfig (config 1 1 0 1) → ⊥ }
    ensures command_16777217 { IsConfig (config 1 1 16777217 1) → ⊥ }
    ensures no_channel { IsConfig (config 1 1 1 0) → ⊥ }
    ensures channel_17 { IsConfig (config 1 1 1 17) → ⊥ }
{}

/// Words that are names of recordings, and words that are not.
pub fn names_of_recordings()
    ensures capitals { rec_name_of (codes "take_1-b") ≡ Some (codes "TAKE_1-B") }
    ensures none { rec_name_of [] ≡ None }
    ensures longest { rec_name_of (replicate 32 65) ≡ Some (replicate 32 65) }
    ensures too_long { rec_name_of (replicate 33 65) ≡ None }
    ensures point { rec_name_of (codes "A.B") ≡ None }
    ensures no_ascii { rec_name_of (196 ∷ []) ≡ None }
{}

/// The limits of places, batches, settings, transitions and names, as numbers.
pub fn limits_of_commands()
    ensures channels { MAX_CHANNELS ≡ 16 }
    ensures layer { MAX_LAYER ≡ 9999 }
    ensures live_layers { MAX_LIVE_LAYERS ≡ 64 }
    ensures batch { MAX_BATCH_COMMANDS ≡ 256 }
    ensures waiting { MAX_WAITING_SETTINGS ≡ 1024 }
    ensures value { MAX_MICROS ≡ pos 1000000000 }
    ensures unit { MICROS_PER_UNIT ≡ pos 1000000 }
    ensures duration { MAX_DURATION ≡ 1000000 }
    ensures steps { EASED_STEPS ≡ 1000000 }
    ensures recording { MAX_REC_NAME_BYTES ≡ 32 }
{}

/// The limits of configurations, histories and clips, as numbers, and the versions of clip files.
pub fn limits_of_runs()
    ensures rate { MAX_RATE ≡ 240 }
    ensures connections { MAX_CONNECTIONS ≡ 64 }
    ensures commands { MAX_JOURNAL_COMMANDS ≡ 16777216 }
    ensures ticks { MAX_TICKS ≡ 281474976710656 }
    ensures side { MAX_SIDE ≡ 4096 }
    ensures pairs { MAX_PAIRS ≡ 4096 }
    ensures frames { MAX_FRAMES ≡ 1000000 }
    ensures clips { MAX_MEDIA_NAMES ≡ 4294967295 }
    ensures multiplied { MULTIPLIED ≡ 1 }
    ensures straight { STRAIGHT ≡ 2 }
{}

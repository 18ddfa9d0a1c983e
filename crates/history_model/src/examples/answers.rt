//! Answers to events.
#![tactic(auto, unfolding(crate::specs::stage::Acts::acts, crate::specs::stage::Acts::is_refused, crate::specs::stage::Value::value, crate::specs::pictures::Frame::frame_pixel, crate::specs::pictures::Sound::frame_sample, crate::specs::stage::Answer::answer))]

ghost use Rattle.std.specs.Prelude.{◌≡◌, ◌∷◌, ◌++◌, [], pos, neg_ℤ, replicate};
ghost use Rattle.play_types.specs.Answer.{micros_of, status_list_of};
ghost use Rattle.play_types.specs.declared.answer.Status.TheVariants.{Empty, Paused, Playing};
ghost use Rattle.play_types.specs.declared.answer.Answer.TheVariants.{Done, Info as Statuses, Refused, Value as Values};
ghost use Rattle.play_types.specs.declared.command.Cmd.TheVariants.{Info, Load, LoadBg, Pause, PlayTake, Set, Value};
ghost use Rattle.play_types.specs.declared.event.Event.TheVariants.{Stop, Tick};
ghost use Rattle.play_types.specs.declared.setting.Prop.TheVariants.{Fill, Opacity};
ghost use Rattle.pixel_math.specs.Pixel.{pixel_of};
ghost use Rattle.history_model.specs.stage.Answer.{answer, Answered, Frames, Stopped};
ghost use Rattle.history_model.specs.Worked.{ask, at, automatic, batch, blue, clip, frame_of, loads, number, numbers, one, plays, red, setting, three};

/// A command is done, or refused, and so is a batch.
pub fn done_or_refused()
    ensures done { answer (one 1) (loads 63) (plays (at 1 63) red) ≡ Answered Done }
    ensures refused { answer (one 1) (loads 64) (plays (at 1 64) red) ≡ Answered Refused }
    ensures batch { answer (one 1) (loads 64) (batch (PlayTake (at 1 63) blue ∷ PlayTake (at 1 64) red ∷ [])) ≡ Answered Refused }
{}

/// A query is answered with the value after the ticks so far. A frame shows the value of one tick later.
pub fn value_queries()
    ensures opacity { answer (one 1) (ask (Set (setting (at 1 0) Opacity (number (pos 0)) 4)) ∷ Tick ∷ []) (ask (Value (at 1 0) Opacity))
        ≡ Answered (Values (micros_of (pos 750000 ∷ []) 1)) }
    ensures fill { answer (one 1) [] (ask (Value (at 1 0) Fill))
        ≡ Answered (Values (micros_of (numbers (pos 0) (pos 0) (pos 1000000) (pos 1000000)) 4)) }
{}

/// A channel plays if some foreground is not paused, is paused if all are, and is empty without a foreground. An
/// automatic start that is due at the next tick has not yet happened.
pub fn statuses()
    ensures each { answer three
        (plays (at 1 0) red ∷ ask (Load (at 1 1) blue) ∷ ask (Load (at 2 0) red) ∷ ask (LoadBg (at 3 0) (automatic red)) ∷ [])
        (ask Info)
        ≡ Answered (Statuses (status_list_of (Playing ∷ Paused ∷ Empty ∷ []) 3)) }
    ensures none { answer (one 1) [] (ask Info) ≡ Answered (Statuses (status_list_of (Empty ∷ []) 1)) }
{}

/// A tick is answered with every channel's pixels and samples, and a stop with its position.
pub fn ticks_and_stops()
    ensures tick { answer three (plays (at 1 0) red ∷ plays (at 2 0) (clip 3 1) ∷ []) Tick
        ≡ Frames
        (frame_of (pixel_of 0 0 255 255 ∷ []) (replicate 6 (pos 0))
        ∷ frame_of (pixel_of 0 0 0 255 ∷ []) (pos 1000 ∷ neg_ℤ (pos 1000) ∷ pos 32767 ∷ neg_ℤ (pos 32768) ∷ pos 0 ∷ pos 0 ∷ [])
        ∷ frame_of (pixel_of 0 0 0 0 ∷ []) (replicate 6 (pos 0)) ∷ []) }
    ensures stop { answer three (plays (at 1 0) red ∷ Tick ∷ []) (Stop (record { worker = 0; session = 0 })) ≡ Stopped 2 }
{}

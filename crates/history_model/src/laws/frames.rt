//! How a frame follows from the tick before it, and the acts of one event more.
ghost use Rattle.std.specs.Prelude.{◌≡◌, ℕ, ◌+◌, ◌∷◌, ◌++◌, [], List, flat_map, unwrap_or};
ghost use Rattle.std.specs.List.{enumerate_from};
ghost use Rattle.play_types.specs.History.{ticks};
ghost use Rattle.play_types.specs.declared.event.Event.{Event};
ghost use Rattle.play_types.specs.declared.event.Event.TheVariants.{Tick};
ghost use Rattle.pixel_math.specs.Pixel.{pixel_bytes};
ghost use Rattle.history_model.specs.scripts.History.{Playout, setup_of};
ghost use Rattle.history_model.specs.scripts.Output.{picture_bytes, sample_bytes, sound_bytes, tick_output, written_frame};
ghost use Rattle.history_model.specs.stage.Acts.{acts, with_event};
ghost use Rattle.history_model.specs.stage.Answer.{ChannelFrame, Frames, answer, channel_frame};
ghost use Rattle.history_model.specs.pictures.Frame.{frame_pixel, last_pixel, pictures_after, scene_pixel};
ghost use Rattle.history_model.specs.pictures.Media.{Setup, size};
ghost use Rattle.history_model.specs.pictures.Scene.{scene};
ghost use Rattle.history_model.specs.pictures.Sound.{frame_sample, last_sample, scene_sample};

/// A frame is made of the drawn layers of its tick and of the frames of the tick before it.
pub fn frame_of_a_scene()
    ensures pixel { (setup : Setup) (history : List Event) (channel x y : ℕ) →
        frame_pixel setup history channel x y
        ≡ scene_pixel (pictures_after setup history) (size setup channel) (scene history channel) x y }
    ensures sample { (setup : Setup) (history : List Event) (channel pair side : ℕ) →
        frame_sample setup history channel pair side
        ≡ scene_sample setup (last_sample setup history) (scene history channel) pair side }
{}

/// After a tick the last frame is the one of that tick.
pub fn last_frame_after_a_tick()
    ensures pixel { (setup : Setup) (history : List Event) (channel x y : ℕ) →
        last_pixel setup (history ++ Tick ∷ []) channel x y ≡ frame_pixel setup history channel x y }
    ensures sample { (setup : Setup) (history : List Event) (channel pair side : ℕ) →
        last_sample setup (history ++ Tick ∷ []) channel pair side ≡ frame_sample setup history channel pair side }
{}

/// One event more adds its own acts, and none if it is refused.
pub fn acts_of_one_more_event()
    ensures { (history : List Event) (event : Event) →
        acts (history ++ event ∷ []) ≡ unwrap_or (with_event (acts history) (ticks history) event) (acts history) }
{}

/// The bytes that are written for a tick are those of its answer: the pixels and the samples that it has for each channel, channel 1
/// first.
pub fn written_ticks_are_their_answers()
    ensures picture { (setup : Setup) (history : List Event) (channel : ℕ) →
        picture_bytes setup history channel ≡ flat_map pixel_bytes (channel_frame setup history channel).pixels }
    ensures sound { (setup : Setup) (history : List Event) (channel : ℕ) →
        sound_bytes setup history channel ≡ flat_map sample_bytes (channel_frame setup history channel).samples }
    ensures script { (playout : Playout) (history : List Event) (frames : List ChannelFrame) →
        answer (setup_of playout) history Tick ≡ Frames frames →
        tick_output playout history ≡ flat_map (written_frame playout (ticks history + 1)) (enumerate_from 1 frames) }
{}

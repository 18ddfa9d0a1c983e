//! Laws of the definitions in `specs/`, each the contract of a function that does nothing.
ghost use Rattle.std.specs.Prelude.{◌≡◌, ◌∷◌, ◌++◌, ◌<◌, [], ℕ, ℤ, List, length, map};
ghost use Rattle.play_types.specs.Config.{ChannelView};
ghost use Rattle.play_types.specs.Scene.{IsConfigured};
ghost use Rattle.play_types.specs.declared.event.Event.{Event};
ghost use Rattle.play_types.specs.declared.event.Event.TheVariants.{Tick};
ghost use Rattle.clip_format.specs.Table.{Entry};
ghost use Rattle.history_model.specs.pictures.Media.{Setup, size};
ghost use Rattle.history_model.specs.pictures.Scene.{scene};
ghost use Rattle.history_model.specs.pictures.Sound.{frame_sample, last_sample};
ghost use Rattle.history_model.specs.scripts.Output.{sound_bytes};
ghost use Rattle.play_scene.specs.Frames.{FrameView, frame_at, zero_frame};
ghost use Rattle.play_scene.specs.Picture.{clips_of};
ghost use Rattle.play_sound.specs.Sounds.{AreSounds, HasSound, Sounds, bytes_of_samples, mixed_sample, sample_in, sounds_after, sounds_of};

/// Frames and a media table give the sounds of the next tick. After a history, the bytes of the sound that the scene of a
/// channel makes are those of the sound of the channel at the tick after the history.
pub fn sounds_of_histories()
    ensures some { (frames : List FrameView) (entries : List Entry) → AreSounds (sounds_of frames entries) frames entries }
    ensures sample { (setup : Setup) (history : List Event) (channel pair side : ℕ) →
        mixed_sample (sounds_after setup history) (scene history channel) pair side ≡ frame_sample setup history channel pair side }
    ensures sound { (setup : Setup) (history : List Event) (channel : ℕ) →
        bytes_of_samples (size setup channel).pairs (mixed_sample (sounds_after setup history) (scene history channel))
        ≡ sound_bytes setup history channel }
{}

/// A frame with the bytes of a sound has its samples. The zero frames are the sounds before the first tick, and frames with the
/// sounds of a tick are the sounds after it.
pub fn frames_are_sounds()
    ensures sample { (frame : FrameView) (setup : Setup) (history : List Event) (channel pair side : ℕ) →
        HasSound frame (frame_sample setup history channel) → pair < frame.size.pairs → side < 2
        → sample_in frame pair side ≡ frame_sample setup history channel pair side }
    ensures first { (setup : Setup) (channels : List ChannelView) (entries : List Entry) → setup.clips ≡ clips_of entries →
        setup.channels ≡ map (λ frame. frame.size) (map zero_frame channels) →
        AreSounds (sounds_after setup []) (map zero_frame channels) entries }
    ensures next { (setup : Setup) (history : List Event) (frames : List FrameView) (entries : List Entry) → setup.clips ≡ clips_of entries →
        setup.channels ≡ map (λ frame. frame.size) frames →
        ((channel : ℕ) → IsConfigured (length frames) channel → HasSound (frame_at channel frames) (frame_sample setup history channel)) →
        AreSounds (sounds_after setup (history ++ Tick ∷ [])) frames entries }
{}

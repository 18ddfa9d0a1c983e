//! Laws of the definitions in `specs/`, each the contract of a function that does nothing but call laws of the crates below.
ghost use Rattle.std.specs.Prelude.{◌≡◌, ◌≢◌, ◌∷◌, ◌++◌, [], ℕ, List, length, map};
ghost use Rattle.play_types.specs.Config.{ChannelView};
ghost use Rattle.play_types.specs.Scene.{IsConfigured};
ghost use Rattle.play_types.specs.declared.event.Event.{Event};
ghost use Rattle.play_types.specs.declared.event.Event.TheVariants.{Tick};
ghost use Rattle.clip_format.specs.Table.{Entry};
ghost use Rattle.history_model.specs.pictures.Media.{Setup};
ghost use Rattle.play_scene.specs.Frames.{FrameView, frame_at, zero_frame};
ghost use Rattle.play_scene.specs.Picture.{clips_of};
ghost use Rattle.band_render.specs.Rendered.{AreRendered, sizes};
ghost use Rattle.band_render.specs.Histories.{HasFrame, Represents, scenes_after};

use play_scene::laws::{frames_are_pictures, pixels_of_histories};
use play_sound::laws::{frames_are_sounds, sounds_of_histories};

/// The frames of a new renderer represent the empty history. If frames represent a history, those rendered from the scenes of the
/// tick after it represent the history with that tick, and the frames themselves represent the history with any other event.
pub fn frames_represent_histories()
    ensures first { (setup : Setup) (channels : List ChannelView) (entries : List Entry) → setup.clips ≡ clips_of entries →
        setup.channels ≡ sizes (map zero_frame channels) →
        Represents setup [] entries (map zero_frame channels) }
    ensures tick { (setup : Setup) (history : List Event) (entries : List Entry) (prev next : List FrameView) →
        Represents setup history entries prev → AreRendered prev entries (scenes_after history (length prev)) next →
        Represents setup (history ++ Tick ∷ []) entries next }
    ensures other { (setup : Setup) (history : List Event) (event : Event) (entries : List Entry) (frames : List FrameView) → event ≢ Tick →
        Represents setup history entries frames → Represents setup (history ++ event ∷ []) entries frames }
{
    pixels_of_histories();
    sounds_of_histories();
    frames_are_pictures();
    frames_are_sounds();
}

/// Frames that are rendered from the scenes of the tick after a history have the size, the bytes of the picture and those of the
/// sound that each channel has at that tick.
pub fn frames_of_a_tick()
    ensures { (setup : Setup) (history : List Event) (entries : List Entry) (prev next : List FrameView) (channel : ℕ) →
        Represents setup history entries prev → AreRendered prev entries (scenes_after history (length prev)) next →
        IsConfigured (length prev) channel → HasFrame setup history channel (frame_at channel next) }
{
    pixels_of_histories();
    sounds_of_histories();
}

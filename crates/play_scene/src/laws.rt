//! Laws of the definitions in `specs/`, each the contract of a function that does nothing.
ghost use Rattle.std.specs.Prelude.{◌≡◌, ◌∷◌, ◌++◌, ◌<◌, [], ℕ, List, length, map};
ghost use Rattle.play_types.specs.ClipFile.{ClipView, IsClip};
ghost use Rattle.play_types.specs.Config.{ChannelView};
ghost use Rattle.play_types.specs.Scene.{IsConfigured};
ghost use Rattle.play_types.specs.declared.event.Event.{Event};
ghost use Rattle.play_types.specs.declared.event.Event.TheVariants.{Tick};
ghost use Rattle.pixel_math.specs.Pixel.{PixelView};
ghost use Rattle.clip_format.specs.Preparing.{AreBytes, prepared_clip, straight_clip};
ghost use Rattle.clip_format.specs.Table.{Entry};
ghost use Rattle.history_model.specs.pictures.Frame.{frame_pixel, pictures_after, scene_pixel};
ghost use Rattle.history_model.specs.pictures.Media.{Setup, clip_pixel};
ghost use Rattle.history_model.specs.pictures.Raster.{Pictures};
ghost use Rattle.history_model.specs.pictures.Scene.{scene};
ghost use Rattle.play_scene.specs.Frames.{ArePictures, FrameView, Shows, frame_at, pictures_of, pixel_in, zero_frame};
ghost use Rattle.play_scene.specs.Picture.{clips_of};

/// Frames and a media table give the pictures of the next tick. If they give those after a history, a pixel of the scene of a
/// channel is the pixel that its frame has at the tick after the history.
pub fn pixels_of_histories()
    ensures some { (frames : List FrameView) (entries : List Entry) → ArePictures (pictures_of frames entries) frames entries }
    ensures frame { (setup : Setup) (history : List Event) (frames : List FrameView) (entries : List Entry) (channel x y : ℕ) →
        ArePictures (pictures_after setup history) frames entries → IsConfigured (length frames) channel →
        scene_pixel (pictures_after setup history) (frame_at channel frames).size (scene history channel) x y
        ≡ frame_pixel setup history channel x y }
{}

/// A clip that was prepared, and one that was made straight, show each pixel that the clip shows.
pub fn pixels_of_prepared_clips()
    ensures prepared { (clip : ClipView) (frame column row : ℕ) → IsClip clip → AreBytes clip.bytes →
        column < clip.geometry.width → row < clip.geometry.height →
        clip_pixel (prepared_clip clip) frame column row ≡ clip_pixel clip frame column row }
    ensures straight { (clip : ClipView) (frame column row : ℕ) → IsClip clip → AreBytes clip.bytes →
        column < clip.geometry.width → row < clip.geometry.height →
        clip_pixel (straight_clip clip) frame column row ≡ clip_pixel clip frame column row }
{}

/// A frame with the bytes of a picture has its pixels. The zero frames are the pictures before the first tick, and frames with
/// the bytes of a tick are the pictures after it.
pub fn frames_are_pictures()
    ensures pixel { (frame : FrameView) (pixel : ℕ → ℕ → PixelView) (x y : ℕ) → Shows frame pixel →
        x < frame.size.width → y < frame.size.height → pixel_in frame x y ≡ pixel x y }
    ensures first { (setup : Setup) (channels : List ChannelView) (entries : List Entry) → setup.clips ≡ clips_of entries →
        setup.channels ≡ map (λ frame. frame.size) (map zero_frame channels) →
        ArePictures (pictures_after setup []) (map zero_frame channels) entries }
    ensures next { (setup : Setup) (history : List Event) (frames : List FrameView) (entries : List Entry) → setup.clips ≡ clips_of entries →
        setup.channels ≡ map (λ frame. frame.size) frames →
        ((channel : ℕ) → IsConfigured (length frames) channel → Shows (frame_at channel frames) (frame_pixel setup history channel)) →
        ArePictures (pictures_after setup (history ++ Tick ∷ [])) frames entries }
{}

//! Laws of the definitions in `specs/`, each the contract of a function that does nothing.
ghost use Rattle.std.specs.Prelude.{◌≡◌, ◌≢◌, ◌+◌, ◌-◌, ◌<◌, ◌≤◌, ◌∷◌, ◌++◌, [], ℕ, List, length, map};
ghost use Rattle.play_types.specs.Config.{ChannelView};
ghost use Rattle.play_types.specs.History.{ticks};
ghost use Rattle.play_types.specs.Scene.{IsConfigured};
ghost use Rattle.play_types.specs.declared.event.Event.{Event};
ghost use Rattle.play_types.specs.declared.event.Event.TheVariants.{Tick};
ghost use Rattle.clip_format.specs.Table.{Entry};
ghost use Rattle.history_model.specs.pictures.Frame.{frame_pixel, last_pixel};
ghost use Rattle.history_model.specs.pictures.Media.{Setup};
ghost use Rattle.history_model.specs.pictures.Sound.{frame_sample, last_sample};
ghost use Rattle.play_scene.specs.Frames.{FrameView, frame_at, zero_frame};
ghost use Rattle.play_scene.specs.Picture.{clips_of};
ghost use Rattle.band_render.specs.Histories.{HasFrame, Represents, scenes_after};
ghost use Rattle.band_render.specs.Rendered.{AreRendered, sizes};
ghost use Rattle.needed_frames.specs.Counted.{DepthsView, HasDepths};
ghost use Rattle.needed_frames.specs.Depth.{depth, greatest_depth, last_depth};
ghost use Rattle.needed_frames.specs.Made.{last_pixel_from, last_sample_from, pixel_from, sample_from};
ghost use Rattle.needed_frames.specs.Rendered.{RepresentsFrom};

/// The depth of a channel at a tick is no more than the number of ticks before it.
pub fn depths_are_within_histories()
    ensures { (history : List Event) (channel : ℕ) → depth history channel ≤ ticks history }
{}

/// An event that is no tick does not change the depth of a channel. The last depth after a tick is the one at that tick.
pub fn depths_event_by_event()
    ensures other { (channels : ℕ) (history : List Event) (event : Event) (depths : DepthsView) → event ≢ Tick →
        HasDepths channels history depths → HasDepths channels (history ++ event ∷ []) depths }
    ensures tick { (history : List Event) (channel : ℕ) → last_depth (history ++ Tick ∷ []) channel ≡ depth history channel }
{}

/// The frame and the sound of a channel at the tick after a history are those of the whole history, if frames are made from the tick on
/// that is as many ticks earlier as the depth of the channel, or from one before that.
pub fn needed_frames_are_whole()
    ensures pixel { (setup : Setup) (from : ℕ) (history : List Event) (channel x y : ℕ) → from ≤ ticks history - depth history channel →
        pixel_from setup from history channel x y ≡ frame_pixel setup history channel x y }
    ensures sample { (setup : Setup) (from : ℕ) (history : List Event) (channel pair side : ℕ) → from ≤ ticks history - depth history channel →
        sample_from setup from history channel pair side ≡ frame_sample setup history channel pair side }
{}

/// Once the frames of all channels are whole at the last tick of a history, they and the sounds are whole from then on.
pub fn later_frames_are_whole()
    ensures pixel { (setup : Setup) (from : ℕ) (past later : List Event) (channel x y : ℕ) →
        ((one : ℕ) → from + last_depth past one < ticks past) →
        last_pixel_from setup from (past ++ later) channel x y ≡ last_pixel setup (past ++ later) channel x y }
    ensures sample { (setup : Setup) (from : ℕ) (past later : List Event) (channel pair side : ℕ) →
        ((one : ℕ) → from + last_depth past one < ticks past) →
        last_sample_from setup from (past ++ later) channel pair side ≡ last_sample setup (past ++ later) channel pair side }
{}

/// The frames of a new renderer are those before the first event, from whichever tick on frames are made. An event that is no tick, or a
/// tick before that one, does not change what the frames represent. Frames that are rendered from the scenes of a later tick represent
/// the history with that tick.
pub fn frames_are_made_from_a_tick()
    ensures first { (setup : Setup) (from : ℕ) (channels : List ChannelView) (entries : List Entry) → setup.clips ≡ clips_of entries →
        setup.channels ≡ sizes (map zero_frame channels) → RepresentsFrom setup from [] entries (map zero_frame channels) }
    ensures other { (setup : Setup) (from : ℕ) (history : List Event) (event : Event) (entries : List Entry) (frames : List FrameView) → event ≢ Tick →
        RepresentsFrom setup from history entries frames → RepresentsFrom setup from (history ++ event ∷ []) entries frames }
    ensures skipped { (setup : Setup) (from : ℕ) (history : List Event) (entries : List Entry) (frames : List FrameView) → ticks history < from →
        RepresentsFrom setup from history entries frames → RepresentsFrom setup from (history ++ Tick ∷ []) entries frames }
    ensures tick { (setup : Setup) (from : ℕ) (history : List Event) (entries : List Entry) (prev next : List FrameView) → from ≤ ticks history →
        RepresentsFrom setup from history entries prev → AreRendered prev entries (scenes_after history (length prev)) next →
        RepresentsFrom setup from (history ++ Tick ∷ []) entries next }
{}

/// If frames are made from an early enough tick on, the frame of a channel is that in the whole history. Once this is so for all
/// channels, the frames represent the whole history, as if none had been left out. At the last tick this is so if frames are made from
/// the tick on that is as many ticks earlier as the greatest depth, or from one before that.
pub fn rendered_frames_are_whole()
    ensures frame { (setup : Setup) (from : ℕ) (history : List Event) (entries : List Entry) (prev next : List FrameView) (channel : ℕ) →
        from ≤ ticks history - depth history channel → RepresentsFrom setup from history entries prev →
        AreRendered prev entries (scenes_after history (length prev)) next → IsConfigured (length prev) channel →
        HasFrame setup history channel (frame_at channel next) }
    ensures all { (setup : Setup) (from : ℕ) (history : List Event) (entries : List Entry) (frames : List FrameView) →
        ((channel : ℕ) → IsConfigured (length frames) channel → from + last_depth history channel < ticks history) →
        RepresentsFrom setup from history entries frames → Represents setup history entries frames }
    ensures last { (setup : Setup) (from : ℕ) (history : List Event) (entries : List Entry) (frames : List FrameView) →
        from ≤ ticks history - 1 - greatest_depth (length frames) history →
        RepresentsFrom setup from history entries frames → Represents setup history entries frames }
{}

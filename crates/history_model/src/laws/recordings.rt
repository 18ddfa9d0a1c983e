//! Marks of recordings, and films.
ghost use Rattle.std.specs.Prelude.{◌≡◌, ℕ, ◌∷◌, ◌++◌, List, Some, false};
ghost use Rattle.play_types.specs.ClipFile.{ClipView, IsClip};
ghost use Rattle.play_types.specs.Commands.{mark_of};
ghost use Rattle.play_types.specs.Geometry.{IsSize};
ghost use Rattle.play_types.specs.History.{is_stop};
ghost use Rattle.play_types.specs.declared.command.Cmd.{Cmd};
ghost use Rattle.play_types.specs.declared.event.Event.{Event};
ghost use Rattle.play_types.specs.declared.event.Event.TheVariants.{Do};
ghost use Rattle.play_types.specs.declared.event.Tag.{Tag};
ghost use Rattle.play_types.specs.declared.shape.Recording.{Recording};
ghost use Rattle.history_model.specs.pictures.Frame.{frame_pixel};
ghost use Rattle.history_model.specs.pictures.Media.{Setup};
ghost use Rattle.history_model.specs.pictures.Sound.{frame_sample};
ghost use Rattle.history_model.specs.recordings.Film.{film};
ghost use Rattle.history_model.specs.stage.Acts.{is_refused};
ghost use Rattle.history_model.specs.stage.Answer.{answer};

/// A mark of a recording that is no part of a batch is never refused, whatever the history before it. It changes no later
/// answer: no frame, sound, value, status or refusal. Only the position of a stop counts it.
pub fn marks_change_nothing()
    ensures accepted { (history : List Event) (tag : Tag) (cmd : Cmd) (mark : Recording) → mark_of cmd ≡ Some mark →
        is_refused history (Do tag cmd) ≡ false }
    ensures answers { (setup : Setup) (before : List Event) (tag : Tag) (cmd : Cmd) (mark : Recording) (later : List Event) (event : Event) →
        mark_of cmd ≡ Some mark → is_stop event ≡ false →
        answer setup (before ++ Do tag cmd ∷ later) event ≡ answer setup (before ++ later) event }
    ensures pixels { (setup : Setup) (before : List Event) (tag : Tag) (cmd : Cmd) (mark : Recording) (later : List Event) (channel x y : ℕ) →
        mark_of cmd ≡ Some mark →
        frame_pixel setup (before ++ Do tag cmd ∷ later) channel x y ≡ frame_pixel setup (before ++ later) channel x y }
    ensures samples { (setup : Setup) (before : List Event) (tag : Tag) (cmd : Cmd) (mark : Recording) (later : List Event) (channel pair side : ℕ) →
        mark_of cmd ≡ Some mark →
        frame_sample setup (before ++ Do tag cmd ∷ later) channel pair side ≡ frame_sample setup (before ++ later) channel pair side }
{}

/// A film is a clip, if the size of its channel is in range: it has 1 to 1,000,000 frames, and exactly the bytes of these.
pub fn films_are_clips()
    ensures { (setup : Setup) (history : List Event) (name : List ℕ) (clip : ClipView) → film setup history name ≡ Some clip →
        IsSize clip.geometry.width clip.geometry.height clip.geometry.pairs → IsClip clip }
{}

//! Batches: what an operator relies on.
ghost use Rattle.std.specs.Prelude.{◌≡◌, ℕ, ◌∷◌, ◌++◌, List, map, true, false};
ghost use Rattle.play_types.specs.Place.{PlaceView};
ghost use Rattle.play_types.specs.History.{is_stop};
ghost use Rattle.play_types.specs.declared.command.Cmd.{Cmd};
ghost use Rattle.play_types.specs.declared.event.Event.{Event};
ghost use Rattle.play_types.specs.declared.event.Event.TheVariants.{Batch, Do};
ghost use Rattle.play_types.specs.declared.event.Tag.{Tag};
ghost use Rattle.play_types.specs.declared.setting.Prop.{Prop};
ghost use Rattle.history_model.specs.stage.Acts.{is_refused};
ghost use Rattle.history_model.specs.stage.Answer.{answer, statuses};
ghost use Rattle.history_model.specs.stage.Timeline.{timeline};
ghost use Rattle.history_model.specs.stage.Value.{value};
ghost use Rattle.history_model.specs.pictures.Frame.{frame_pixel};
ghost use Rattle.history_model.specs.pictures.Media.{Setup};
ghost use Rattle.history_model.specs.pictures.Sound.{frame_sample};

/// After an accepted batch every answer but the position of a stop, and every frame, sample, value and status, is what it would
/// be with its commands one after another in its place, with no tick between. Each of these commands is accepted, and both
/// histories have one timeline.
pub fn batch_is_its_commands()
    ensures answers { (setup : Setup) (before : List Event) (tag : Tag) (cmds : List Cmd) (later : List Event) (next : Event) →
        is_refused before (Batch tag cmds) ≡ false → is_stop next ≡ false →
        answer setup (before ++ Batch tag cmds ∷ later) next ≡ answer setup (before ++ map (Do tag) cmds ++ later) next }
    ensures pixels { (setup : Setup) (before : List Event) (tag : Tag) (cmds : List Cmd) (later : List Event) (channel x y : ℕ) →
        is_refused before (Batch tag cmds) ≡ false →
        frame_pixel setup (before ++ Batch tag cmds ∷ later) channel x y
        ≡ frame_pixel setup (before ++ map (Do tag) cmds ++ later) channel x y }
    ensures samples { (setup : Setup) (before : List Event) (tag : Tag) (cmds : List Cmd) (later : List Event) (channel pair side : ℕ) →
        is_refused before (Batch tag cmds) ≡ false →
        frame_sample setup (before ++ Batch tag cmds ∷ later) channel pair side
        ≡ frame_sample setup (before ++ map (Do tag) cmds ++ later) channel pair side }
    ensures values { (before : List Event) (tag : Tag) (cmds : List Cmd) (later : List Event) (place : PlaceView) (prop : Prop) (now : ℕ) →
        is_refused before (Batch tag cmds) ≡ false →
        value (before ++ Batch tag cmds ∷ later) place prop now ≡ value (before ++ map (Do tag) cmds ++ later) place prop now }
    ensures statuses { (setup : Setup) (before : List Event) (tag : Tag) (cmds : List Cmd) (later : List Event) →
        is_refused before (Batch tag cmds) ≡ false →
        statuses setup (before ++ Batch tag cmds ∷ later) ≡ statuses setup (before ++ map (Do tag) cmds ++ later) }
    ensures accepted { (before : List Event) (tag : Tag) (first : List Cmd) (cmd : Cmd) (rest : List Cmd) →
        is_refused before (Batch tag (first ++ cmd ∷ rest)) ≡ false →
        is_refused (before ++ map (Do tag) first) (Do tag cmd) ≡ false }
    ensures timeline { (before : List Event) (tag : Tag) (cmds : List Cmd) (later : List Event) →
        is_refused before (Batch tag cmds) ≡ false →
        timeline (before ++ Batch tag cmds ∷ later) ≡ timeline (before ++ map (Do tag) cmds ++ later) }
{}

/// In a refused batch one command is refused after those before it. The batch changes no later answer but the position of a
/// stop, and so no frame, sample, value or status: the timeline is that of the history without it.
pub fn refused_batch_changes_nothing()
    ensures one { (before : List Event) (tag : Tag) (cmds : List Cmd) → is_refused before (Batch tag cmds) ≡ true →
        (first : List Cmd) × (cmd : Cmd) × (rest : List Cmd) × (cmds ≡ first ++ cmd ∷ rest)
        × (is_refused before (Batch tag first) ≡ false) × (is_refused (before ++ map (Do tag) first) (Do tag cmd) ≡ true) }
    ensures answers { (setup : Setup) (before : List Event) (tag : Tag) (cmds : List Cmd) (later : List Event) (next : Event) →
        is_refused before (Batch tag cmds) ≡ true → is_stop next ≡ false →
        answer setup (before ++ Batch tag cmds ∷ later) next ≡ answer setup (before ++ later) next }
    ensures pixels { (setup : Setup) (before : List Event) (tag : Tag) (cmds : List Cmd) (later : List Event) (channel x y : ℕ) →
        is_refused before (Batch tag cmds) ≡ true →
        frame_pixel setup (before ++ Batch tag cmds ∷ later) channel x y ≡ frame_pixel setup (before ++ later) channel x y }
    ensures samples { (setup : Setup) (before : List Event) (tag : Tag) (cmds : List Cmd) (later : List Event) (channel pair side : ℕ) →
        is_refused before (Batch tag cmds) ≡ true →
        frame_sample setup (before ++ Batch tag cmds ∷ later) channel pair side ≡ frame_sample setup (before ++ later) channel pair side }
    ensures values { (before : List Event) (tag : Tag) (cmds : List Cmd) (later : List Event) (place : PlaceView) (prop : Prop) (now : ℕ) →
        is_refused before (Batch tag cmds) ≡ true →
        value (before ++ Batch tag cmds ∷ later) place prop now ≡ value (before ++ later) place prop now }
    ensures statuses { (setup : Setup) (before : List Event) (tag : Tag) (cmds : List Cmd) (later : List Event) →
        is_refused before (Batch tag cmds) ≡ true →
        statuses setup (before ++ Batch tag cmds ∷ later) ≡ statuses setup (before ++ later) }
    ensures timeline { (before : List Event) (tag : Tag) (cmds : List Cmd) (later : List Event) →
        is_refused before (Batch tag cmds) ≡ true →
        timeline (before ++ Batch tag cmds ∷ later) ≡ timeline (before ++ later) }
{}

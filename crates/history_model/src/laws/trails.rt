//! Where contents and mixer values came from.
ghost use Rattle.std.specs.Prelude.{◌≡◌, ℕ, ◌∷◌, [], List, Bool, true, false};
ghost use Rattle.play_types.specs.Place.{PlaceView};
ghost use Rattle.play_types.specs.declared.command.Cmd.TheVariants.{SwapChannels, SwapLayers};
ghost use Rattle.history_model.specs.stage.Act.{Act, act_after};
ghost use Rattle.history_model.specs.stage.Touched.{some_touches, touches};
ghost use Rattle.history_model.specs.stage.Trail.{trail, tuning};

/// An act that does not touch a place leaves its trail, and a place that no act touches has an empty one.
pub fn acts_on_other_places()
    ensures other { (act : Act) (before : List Act) (place : PlaceView) → touches act.cmd place ≡ false →
        trail (act ∷ before) place ≡ trail before place }
    ensures untouched { (acts : List Act) (place : PlaceView) → some_touches acts place ≡ false → trail acts place ≡ [] }
{}

/// A swap that is done twice gives every trail back.
pub fn swaps_done_twice()
    ensures layers { (a b : PlaceView) (first second : Bool) (m n : ℕ) (before : List Act) (place : PlaceView) →
        trail (act_after n (SwapLayers a b second) ∷ act_after m (SwapLayers a b first) ∷ before) place ≡ trail before place }
    ensures channels { (a b : ℕ) (first second : Bool) (m n : ℕ) (before : List Act) (place : PlaceView) →
        trail (act_after n (SwapChannels a b second) ∷ act_after m (SwapChannels a b first) ∷ before) place ≡ trail before place }
{}

/// A swap with transforms that is done twice gives the settings and resets of every place back too.
pub fn swaps_with_transforms_done_twice()
    ensures layers { (a b : PlaceView) (m n : ℕ) (before : List Act) (place : PlaceView) →
        tuning (act_after n (SwapLayers a b true) ∷ act_after m (SwapLayers a b true) ∷ before) place ≡ tuning before place }
    ensures channels { (a b : ℕ) (m n : ℕ) (before : List Act) (place : PlaceView) →
        tuning (act_after n (SwapChannels a b true) ∷ act_after m (SwapChannels a b true) ∷ before) place ≡ tuning before place }
{}

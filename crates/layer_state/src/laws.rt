//! Laws of the definitions in `specs/`, each the contract of a function that does nothing.
ghost use Rattle.std.specs.Prelude.{◌≡◌, ℕ, ◌+◌, ◌≤◌, ◌∷◌, List};
ghost use Rattle.std.specs.Option.{ForSome};
ghost use Rattle.play_types.specs.History.{ticks};
ghost use Rattle.play_types.specs.Place.{PlaceView};
ghost use Rattle.play_types.specs.declared.command.Cmd.{Cmd};
ghost use Rattle.play_types.specs.declared.event.Event.{Event};
ghost use Rattle.history_model.specs.stage.Act.{Act, act_after};
ghost use Rattle.history_model.specs.stage.Acts.{acts};
ghost use Rattle.history_model.specs.stage.Life.{Life, after, effect};
ghost use Rattle.history_model.specs.stage.Trail.{trail};
ghost use Rattle.layer_state.specs.Past.{IsPast, Represents};
ghost use Rattle.layer_state.specs.Ticks.{ticked};

/// `n` single ticks of a layer are `n` ticks of `after` at once.
pub fn ticks_one_by_one()
    ensures { (n : ℕ) (layer : Life) → ticked n layer ≡ after layer n }
{}

/// A layer that represents a past represents that past with a command at its end once the command has had its effect,
/// and that past with more ticks once these have passed.
pub fn pasts_go_on()
    ensures command { (cmd : Cmd) (layer : Life) (acts : List Act) (t : ℕ) → Represents layer acts t
        → Represents (effect cmd layer) (act_after t cmd ∷ acts) t }
    ensures ticks { (n : ℕ) (layer : Life) (acts : List Act) (t : ℕ) → Represents layer acts t
        → Represents (after layer n) acts (t + n) }
{}

/// A foreground was shown for no more ticks than have passed since the history began.
pub fn shown_within_the_ticks()
    ensures { (layer : Life) (acts : List Act) (t : ℕ) → Represents layer acts t
        → ForSome layer.foreground (λ foreground. foreground.shown ≤ t) }
{}

/// The acts of a history are a past, and so are those of them that made the content of a place.
pub fn acts_are_a_past()
    ensures history { (history : List Event) → IsPast (acts history) (ticks history) }
    ensures place { (past : List Act) (t : ℕ) (at : PlaceView) → IsPast past t → IsPast (trail past at) t }
{}

//! Places over time.
ghost use Rattle.std.specs.Prelude.{◌≡◌, ℕ, ◌+◌, ◌<◌, ◌≤◌, ◌∷◌, List, Some};
ghost use Rattle.history_model.specs.stage.Act.{Act};
ghost use Rattle.history_model.specs.stage.Life.{Life, after, delay, life, ready, run_for, start};
ghost use Rattle.history_model.specs.stage.Live.{is_live};
ghost use Rattle.history_model.specs.stage.Steps.{steps};

/// `n` ticks one after another are `n` ticks at once, and `j` ticks and then `k` more are `j + k` ticks.
pub fn stepping_is_jumping()
    ensures steps { (n : ℕ) (s : Life) → steps n s ≡ after s n }
    ensures sum { (s : Life) (j k : ℕ) → after (after s j) k ≡ after s (j + k) }
    ensures later { (act : Act) (before : List Act) (t k : ℕ) → act.ticks ≤ t →
        life (act ∷ before) (t + k) ≡ after (life (act ∷ before) t) k }
{}

/// An automatic start comes once its delay has passed and not before, whether the ticks pass one by one or at once.
pub fn automatic_start_at_its_tick()
    ensures not_before { (s : Life) (a j : ℕ) → delay s ≡ Some a → j < a → ready (steps j s) ≡ steps j s }
    ensures due { (s : Life) (a : ℕ) → delay s ≡ Some a → ready (steps a s) ≡ start (run_for a s) }
    ensures not_before_by_jump { (s : Life) (a j : ℕ) → delay s ≡ Some a → j < a → ready (after s j) ≡ after s j }
    ensures due_by_jump { (s : Life) (a : ℕ) → delay s ≡ Some a → ready (after s a) ≡ start (run_for a s) }
{}

/// Ticks do not change whether a place is live.
pub fn ticks_keep_a_place_live()
    ensures place { (s : Life) (k : ℕ) → is_live (after s k) ≡ is_live s }
    ensures acts { (acts : List Act) (t u : ℕ) → is_live (life acts t) ≡ is_live (life acts u) }
{}

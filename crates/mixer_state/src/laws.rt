//! Laws of the definitions in `specs/`, each the contract of a function that does nothing.
ghost use Rattle.std.specs.Prelude.{ℕ, ◌≤◌, List, IsTrue};
ghost use Rattle.play_types.specs.declared.command.Cmd.{Cmd};
ghost use Rattle.history_model.specs.stage.Act.{Act};
ghost use Rattle.mixer_state.specs.Mixer.{MixerView};
ghost use Rattle.mixer_state.specs.Past.{Represents, TakesCommand, leaves_mixer};

/// A command that changes no mixer value and no waiting setting leaves what a mixer represents, and so does time that
/// passes.
pub fn what_leaves_a_mixer()
    ensures command { (cmd : Cmd) (ticks : ℕ) (mixer : MixerView) → IsTrue (leaves_mixer cmd)
        → TakesCommand cmd ticks mixer mixer }
    ensures time { (mixer : MixerView) (acts : List Act) (ticks later : ℕ) → ticks ≤ later
        → Represents mixer acts ticks → Represents mixer acts later }
{}

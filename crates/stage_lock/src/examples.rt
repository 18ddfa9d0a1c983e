//! The limit of passes, as a number, and a stage that was shared with events.
ghost use Rattle.std.specs.Prelude.{◌≡◌, ℕ, ◌∷◌, [], List, Some};
ghost use Rattle.play_types.specs.History.{stop_at};
ghost use Rattle.play_types.specs.declared.command.Cmd.{Cmd};
ghost use Rattle.play_types.specs.declared.drawn.Drawn.{Drawn};
ghost use Rattle.play_types.specs.declared.event.Event.{Event};
ghost use Rattle.play_types.specs.declared.event.Event.TheVariants.{Do, Stop, Tick};
ghost use Rattle.play_types.specs.declared.event.Tag.{Tag};
ghost use Rattle.stage_lock.specs.declared.shared.TheConstants.{MAX_PASSES};
ghost use Rattle.stage_lock.specs.declared.ticked.Ticked.{Ticked};
ghost use Rattle.stage_lock.specs.Calls.{IsCounted, IsStopped};
ghost use Rattle.stage_lock.specs.Views.{Sizes, whole};
ghost use Rattle.stage_lock.specs.Worked.{with_two_events};

/// A stage is shared by at most 66 threads: 64 that serve connections, the one that makes the ticks, and the one that writes the log.
pub fn limits()
    ensures { MAX_PASSES ≡ 66 }
{}

/// A stage is shared with a command and a tick in its journal. If a call then finds a stop as the only event since, the stop is
/// at position 2. If nothing was added since, a tick has the number 2 and returns a count of one command, and a stop gets the
/// position 2.
pub fn shared_with_two_events()
    ensures look { (tag : Tag) (cmd : Cmd) → whole (with_two_events tag cmd) (Stop tag ∷ []) ≡ Do tag cmd ∷ Tick ∷ Stop tag ∷ [] }
    ensures stopped { (tag : Tag) (cmd : Cmd) → stop_at (whole (with_two_events tag cmd) (Stop tag ∷ [])) ≡ Some 2 }
    ensures number { (tag : Tag) (cmd : Cmd) (ticked : Ticked) (drawn : List (List Drawn)) → IsCounted (with_two_events tag cmd) ticked drawn [] → ticked.number ≡ 2 }
    ensures held { (tag : Tag) (cmd : Cmd) (ticked : Ticked) (drawn : List (List Drawn)) → IsCounted (with_two_events tag cmd) ticked drawn [] → ticked.held ≡ 1 }
    ensures stop { (tag : Tag) (cmd : Cmd) (at : ℕ) → IsStopped (with_two_events tag cmd).given at [] → at ≡ 2 }
{}

/// If a stage was shared without events, the history of its passes is all that its journal holds.
pub fn shared_without_events()
    ensures { (sizes : Sizes) (history : List Event) → sizes.given ≡ [] → whole sizes history ≡ history }
{}

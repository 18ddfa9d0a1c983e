//! Worked examples of the definitions in `specs/`, which the checker computes.
ghost use Rattle.std.specs.Prelude.{◌≡◌, ◌∷◌, [], true, false};
ghost use Rattle.play_types.specs.History.{held};
ghost use Rattle.play_types.specs.declared.event.Event.TheVariants.{Batch, Do, Stop, Tick};
ghost use Rattle.play_journal.specs.Journal.{IsRefused};
ghost use Rattle.play_journal.specs.Places.{Copies, passed};
ghost use Rattle.play_journal.specs.Runs.{AreRuns};
ghost use Rattle.play_journal.specs.Worked.{full, once, place_of, three_ticks, two_ticks};

use crate::fault::PushFault;
use play_types::{Cmd, Tag};

/// The runs of two ticks, a command, three ticks and the stop.
pub fn runs_of_events(tag: Tag, cmd: Cmd)
    ensures none { AreRuns [] [] }
    ensures runs { AreRuns (two_ticks ∷ once (Do tag cmd) ∷ three_ticks ∷ once (Stop tag) ∷ [])
        (Tick ∷ Tick ∷ Do tag cmd ∷ Tick ∷ Tick ∷ Tick ∷ Stop tag ∷ []) }
    ensures twice { AreRuns (once (Do tag cmd) ∷ once (Do tag cmd) ∷ []) (Do tag cmd ∷ Do tag cmd ∷ []) }
    ensures not_merged { AreRuns (once Tick ∷ once Tick ∷ []) (Tick ∷ Tick ∷ []) → ⊥ }
    ensures tick_left_out { AreRuns (two_ticks ∷ []) (Tick ∷ Tick ∷ Tick ∷ []) → ⊥ }
{}

/// A journal of two commands at most that holds two: one more command is too many.
pub fn refusals(tag: Tag, cmd: Cmd)
    ensures refused { IsRefused (full tag cmd) 1 (PushFault.JournalFull 2) }
    ensures another_number { IsRefused (full tag cmd) 1 (PushFault.JournalFull 3) → ⊥ }
    ensures full_before_memory { IsRefused (full tag cmd) 1 PushFault.OutOfMemory → ⊥ }
{}

/// A journal of three commands at most that holds two: a batch of one fits, and one of two is too many.
pub fn refusals_of_batches(tag: Tag, cmd: Cmd)
    ensures refused { IsRefused (record (full tag cmd) { limit = 3 }) 2 (PushFault.JournalFull 2) }
    ensures full_before_memory { IsRefused (record (full tag cmd) { limit = 3 }) 2 PushFault.OutOfMemory → ⊥ }
    ensures fits { IsRefused (record (full tag cmd) { limit = 3 }) 1 (PushFault.JournalFull 2) → ⊥ }
    ensures counted { held (Batch tag (cmd ∷ cmd ∷ []) ∷ Tick ∷ Do tag cmd ∷ []) ≡ 3 }
    ensures one_run { AreRuns (two_ticks ∷ once (Batch tag (cmd ∷ cmd ∷ [])) ∷ []) (Tick ∷ Tick ∷ Batch tag (cmd ∷ cmd ∷ []) ∷ []) }
{}

/// The places behind ticks, commands, a batch and the stop.
pub fn places_of_events(tag: Tag, cmd: Cmd)
    ensures none { passed [] ≡ place_of 0 0 false }
    ensures ticks { passed (Tick ∷ Tick ∷ []) ≡ place_of 0 2 false }
    ensures command { passed (Tick ∷ Tick ∷ Do tag cmd ∷ []) ≡ place_of 1 0 false }
    ensures more_ticks { passed (Tick ∷ Tick ∷ Do tag cmd ∷ Tick ∷ []) ≡ place_of 1 1 false }
    ensures batch { passed (Do tag cmd ∷ Tick ∷ Batch tag (cmd ∷ cmd ∷ []) ∷ []) ≡ place_of 2 0 false }
    ensures stop { passed (Do tag cmd ∷ Tick ∷ Stop tag ∷ []) ≡ place_of 1 1 true }
{}

/// Copies behind a place after one tick. Of a tick and a command that follow, the tick alone may be copied, as one run; then
/// the new place is not behind the command, and the copy is not all that follows. The tick before the place is not copied
/// again, and a copy is not empty if something follows that fits.
pub fn copies_of_events(tag: Tag, cmd: Cmd)
    ensures ticks_alone { Copies (Tick ∷ []) (Tick ∷ Do tag cmd ∷ []) false (place_of 0 2 false) (once Tick ∷ []) }
    ensures command_passed_over { Copies (Tick ∷ []) (Tick ∷ Do tag cmd ∷ []) false (place_of 1 0 false) (once Tick ∷ []) → ⊥ }
    ensures command_left_out { Copies (Tick ∷ []) (Tick ∷ Do tag cmd ∷ []) true (place_of 0 2 false) (once Tick ∷ []) → ⊥ }
    ensures ticks_twice { Copies (Tick ∷ []) (Tick ∷ []) true (place_of 0 2 false) (two_ticks ∷ []) → ⊥ }
    ensures nothing { Copies [] (Do tag cmd ∷ []) false (place_of 0 0 false) [] → ⊥ }
{}

//! Laws of the definitions in `specs/`, each the contract of a function that does nothing.
ghost use Rattle.std.specs.Prelude.{◌≡◌, List};
ghost use Rattle.std.specs.Option.{is_some};
ghost use Rattle.play_types.specs.History.{stop_at};
ghost use Rattle.play_types.specs.declared.event.Event.{Event};
ghost use Rattle.play_journal.specs.Places.{passed};
ghost use Rattle.play_journal.specs.Runs.{AreRuns, Run};

/// Events have only one list of runs.
pub fn runs_are_determined()
    ensures { (events : List Event) (runs others : List Run) → AreRuns runs events → AreRuns others events
        → runs ≡ others }
{}

/// A place is behind a stop exactly if one of the events before it is a stop.
pub fn places_tell_of_a_stop()
    ensures { (events : List Event) → (passed events).stopped ≡ is_some (stop_at events) }
{}

//! The limit of sessions, as a number.
ghost use Rattle.std.specs.Prelude.{◌≡◌};
ghost use Rattle.conn_worker.specs.declared.work_end.TheConstants.{MAX_SESSIONS};

/// A door has 4,294,967,295 sessions at most.
pub fn limits()
    ensures { MAX_SESSIONS ≡ 4294967295 }
{}

//! The limits of waits, as numbers.
ghost use Rattle.std.specs.Prelude.{◌≡◌};
ghost use Rattle.real_devices.specs.declared.patience.TheConstants.{INTERRUPTIONS, RESTORED_WAITS, RESTORING_BYTES, WRITE_WAITS};
ghost use Rattle.real_devices.specs.declared.watch.TheConstants.{SILENT_SECONDS};

/// A client may keep its replies waiting for 100 waits, and gets 10 back for each 65,536 bytes. A client that sends no
/// command for 600 seconds may be disconnected. The 1,000th interruption of a call makes it fail.
pub fn limits()
    ensures waits { WRITE_WAITS ≡ 100 }
    ensures restored { RESTORED_WAITS ≡ 10 }
    ensures bytes { RESTORING_BYTES ≡ 65536 }
    ensures silence { SILENT_SECONDS ≡ 600 }
    ensures interruptions { INTERRUPTIONS ≡ 1000 }
{}

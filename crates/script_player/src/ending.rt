//! Why a run stops at a line, and how a run ends.
ghost use Rattle.std.specs.Prelude.{◌≡◌, ◌<◌, ◌^◌};
ghost use Rattle.script_player.specs.declared.ending.Halt.TheVariants.{Memory, Write};
ghost use Rattle.script_player.specs.Ending.{ending_of, fault_in, fault_of};

use play_outside::WriteFailed;
use server_setup::RunFault;
use std::alloc::{AllocError, AllocFailed};

/// Why a run stops at a line.
#[derive(Clone, Copy, Debug, PartialEq, Eq)]
pub enum Halt {
    /// The line is the server's own stop, or a kill.
    Stop,
    /// The line is not a valid line of a script.
    Rejected,
    /// A write failed.
    Write,
    /// The run is out of memory.
    Memory,
}

/// How a run ends.
#[derive(Clone, Copy, Debug, PartialEq, Eq)]
pub enum Ending {
    /// The input ended, and all its lines were taken.
    Finished,
    /// A line was the server's own stop, or a kill.
    Stopped,
    /// The line of this number, from 1, is not a valid line of a script.
    BadLine(u64),
    /// The input has more bytes than a script may have.
    TooLong,
    /// A read of the input failed.
    ReadFault,
    /// A write of the output failed.
    WriteFault,
    /// The run is out of memory.
    Memory,
}

impl From<WriteFailed> for Halt {
    ghost from_gives = { λ _ halt. halt ≡ Write };

    fn from(_failed: WriteFailed) -> Halt {
        Halt::Write
    }
}

impl From<AllocError> for Halt {
    ghost from_gives = { λ _ halt. halt ≡ Memory };

    fn from(_error: AllocError) -> Halt {
        Halt::Memory
    }
}

impl<T: Drop> From<AllocFailed<T>> for Halt {
    ghost from_gives = { λ _ halt. halt ≡ Memory };

    fn from(_failed: AllocFailed<T>) -> Halt {
        Halt::Memory
    }
}

impl Halt {
    /// Returns how a run ends that stops for this reason after `lines` lines.
    pub fn ending(self, lines: u64) -> Ending
        requires { lines < 2 ^ 63 }
        ensures { result ≡ ending_of self lines }
    {
        match self {
            Halt::Stop => Ending::Stopped,
            Halt::Rejected => Ending::BadLine(lines + 1),
            Halt::Write => Ending::WriteFault,
            Halt::Memory => Ending::Memory,
        }
    }
}

impl Ending {
    /// Returns the fault with which the run ended as an error, and `Ok` if it ended well.
    pub fn outcome(self) -> Result<(), RunFault>
        ensures { fault_in result ≡ fault_of self }
    {
        match self {
            Ending::Finished | Ending::Stopped => Ok(()),
            Ending::BadLine(number) => Err(RunFault::BadLine(number)),
            Ending::TooLong => Err(RunFault::InputTooLong),
            Ending::ReadFault | Ending::WriteFault => Err(RunFault::Device),
            Ending::Memory => Err(RunFault::OutOfMemory),
        }
    }
}

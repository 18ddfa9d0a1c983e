//! Why a history is not read.

use server_setup::RunFault;
use std::alloc::AllocError;
use std::error::Error;
use std::fmt;

/// Why a history is not read.
#[derive(Clone, Copy, Debug, PartialEq, Eq)]
pub enum ReadHistoryFault {
    /// The line of this number, from 1, is the first that no history has after the lines before it: it is a comment or of no form, it
    /// makes no event and is kept for no batch, or it follows a stop.
    Line(u64),
    /// A read failed.
    Device,
    /// Memory ran out.
    OutOfMemory,
    /// The input has more bytes than a history may have.
    TooLong,
}

impl fmt::Display for ReadHistoryFault {
    fn fmt<W: fmt::Write>(&self, f: &mut fmt::Formatter<W>) -> fmt::Result {
        match self {
            ReadHistoryFault::Line(number) => write!(
                f,
                "line {number} is none that a history has there"
            ),
            ReadHistoryFault::Device => write!(f, "a read failed"),
            ReadHistoryFault::OutOfMemory => write!(f, "out of memory"),
            ReadHistoryFault::TooLong => write!(f, "the input has more bytes than are read"),
        }
    }
}

impl Error for ReadHistoryFault {}

impl From<AllocError> for ReadHistoryFault {
    ghost use Rattle.std.specs.Prelude.{◌≡◌};
    ghost use Rattle.history_reader.specs.declared.fault.ReadHistoryFault.TheVariants.{OutOfMemory};

    ghost from_gives = { λ _ fault. fault ≡ OutOfMemory };

    fn from(_error: AllocError) -> ReadHistoryFault {
        ReadHistoryFault::OutOfMemory
    }
}

impl From<ReadHistoryFault> for RunFault {
    ghost use Rattle.std.specs.Prelude.{◌≡◌};
    ghost use Rattle.history_reader.specs.Fault.{fault_of_history};

    ghost from_gives = { λ error fault. fault ≡ fault_of_history error };

    fn from(error: ReadHistoryFault) -> RunFault {
        match error {
            ReadHistoryFault::Line(number) => RunFault::Resume(number),
            ReadHistoryFault::Device => RunFault::Device,
            ReadHistoryFault::OutOfMemory => RunFault::OutOfMemory,
            ReadHistoryFault::TooLong => RunFault::InputTooLong,
        }
    }
}

//! Why an event was not added.

use std::alloc::AllocError;
use std::error::Error;
use std::fmt;

/// Why an event was not added to a journal, which is as it was before.
#[derive(Clone, Copy, Debug, PartialEq, Eq)]
pub enum PushFault {
    /// Memory ran out.
    OutOfMemory,
    /// `held` commands are held, and those of the event would exceed the limit.
    JournalFull { held: u32 },
}

impl fmt::Display for PushFault {
    fn fmt<W: fmt::Write>(&self, f: &mut fmt::Formatter<W>) -> fmt::Result {
        match self {
            PushFault::OutOfMemory => write!(f, "out of memory"),
            PushFault::JournalFull { held } => {
                write!(f, "the journal is full: it holds {held} commands")
            }
        }
    }
}

impl Error for PushFault {}

impl From<AllocError> for PushFault {
    ghost use Rattle.std.specs.Prelude.{◌≡◌};
    ghost use Rattle.play_journal.specs.declared.fault.PushFault.TheVariants.{OutOfMemory};

    ghost from_gives = { λ _ fault. fault ≡ OutOfMemory };

    fn from(_error: AllocError) -> PushFault {
        PushFault::OutOfMemory
    }
}

//! Why a stage does not take an event.

use play_journal::PushFault;
use std::error::Error;
use std::fmt;

/// Why a stage did not take a command or a batch. The stage and its journal are as before.
#[derive(Clone, Copy, Debug, PartialEq, Eq)]
pub enum ApplyFault {
    /// Memory ran out.
    OutOfMemory,
    /// The journal holds `held` commands, and its limit leaves no room for those of the event.
    JournalFull { held: u32 },
    /// The history was stopped: `at` events come before the stop.
    Ended { at: u64 },
}

impl fmt::Display for ApplyFault {
    fn fmt<W: fmt::Write>(&self, f: &mut fmt::Formatter<W>) -> fmt::Result {
        match self {
            ApplyFault::OutOfMemory => write!(f, "out of memory"),
            ApplyFault::JournalFull { held } => {
                write!(f, "the journal is full: it holds {held} commands")
            }
            ApplyFault::Ended { at } => write!(f, "the history ended at event {at}"),
        }
    }
}

impl Error for ApplyFault {}

impl From<PushFault> for ApplyFault {
    ghost use Rattle.std.specs.Prelude.{◌≡◌};
    ghost use Rattle.stage_core.specs.Stage.{fault_of};

    ghost from_gives = { λ fault result. result ≡ fault_of fault };

    fn from(fault: PushFault) -> ApplyFault {
        match fault {
            PushFault::OutOfMemory => ApplyFault::OutOfMemory,
            PushFault::JournalFull { held } => ApplyFault::JournalFull { held },
        }
    }
}

/// Why a stage did not take a tick. The stage, its journal and the scenes are as before.
#[derive(Clone, Copy, Debug, PartialEq, Eq)]
pub enum TickFault {
    /// The history was stopped: `at` events come before the stop.
    Ended { at: u64 },
    /// The history has 281,474,976,710,656 ticks, and may have no more.
    TicksOver,
}

impl fmt::Display for TickFault {
    fn fmt<W: fmt::Write>(&self, f: &mut fmt::Formatter<W>) -> fmt::Result {
        match self {
            TickFault::Ended { at } => write!(f, "the history ended at event {at}"),
            TickFault::TicksOver => write!(f, "the history has as many ticks as it may have"),
        }
    }
}

impl Error for TickFault {}

/// A stage did not take a stop, since its journal already holds one: `at` events come before that.
#[derive(Clone, Copy, Debug, PartialEq, Eq)]
pub struct Ended {
    pub at: u64,
}

impl fmt::Display for Ended {
    fn fmt<W: fmt::Write>(&self, f: &mut fmt::Formatter<W>) -> fmt::Result {
        write!(f, "the history ended at event {}", self.at)
    }
}

impl Error for Ended {}

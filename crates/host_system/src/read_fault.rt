//! Why a file or a folder of the system was not read.

ghost use Rattle.std.specs.Prelude.{◌↔◌, ◌≡◌, IsTrue};
ghost use Rattle.play_outside.specs.declared.folder.FileFault.TheVariants.{OutOfMemory};
ghost use Rattle.host_system.specs.inner.Faults.{fault_of};
ghost use Rattle.host_system.specs.declared.read_fault.ReadFault.TheVariants.{System};

use std::fmt;
use std::io::{Error, ErrorKind};

/// Why a file or a folder was not read.
#[derive(Drop)]
pub enum ReadFault {
    /// It is no regular file: a folder, a named pipe, a socket or a device.
    NotRegular,
    /// The error of the system.
    System(Error),
}

impl ReadFault {
    /// Returns whether memory ran out.
    pub fn is_memory(&self) -> bool
        ensures { IsTrue result ↔ (fault_of self.now ≡ OutOfMemory) }
    {
        match self {
            ReadFault::NotRegular => false,
            ReadFault::System(error) => matches!(error.kind(), ErrorKind::OutOfMemory),
        }
    }
}

impl fmt::Display for ReadFault {
    fn fmt<W: fmt::Write>(&self, f: &mut fmt::Formatter<W>) -> fmt::Result {
        match self {
            ReadFault::NotRegular => write!(f, "not a regular file"),
            ReadFault::System(error) => write!(f, "{error}"),
        }
    }
}

impl From<Error> for ReadFault {
    ghost from_gives = { λ error fault. fault ≡ System error };

    fn from(error: Error) -> ReadFault {
        ReadFault::System(error)
    }
}

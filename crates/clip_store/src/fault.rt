//! Why no media table was read from a folder.
ghost use Rattle.std.specs.Prelude.{◌≡◌};
ghost use Rattle.clip_store.specs.declared.fault.ScanFault.TheVariants.{OutOfMemory};
ghost use Rattle.clip_store.specs.Faults.{fault_of};

use crate::reading::MAX_MEDIA_BYTES;
use play_outside::FileFault;
use play_types::Text;
use std::alloc::AllocError;
use std::error::Error;
use std::fmt;

/// Why a folder did not become a media table.
#[derive(Debug, Drop)]
pub enum ScanFault {
    /// The folder or a file of it could not be read.
    ReadFault,
    /// Two clip files have this name, and no two have a lesser one.
    TwoNames { name: Text },
    /// The clip files are too large: this is the first sum of their lengths, in bytes and in order of their names, that
    /// is above 1,073,741,824. An empty file counts as one byte.
    TooLarge { total: u64 },
    /// Memory ran out.
    OutOfMemory,
}

impl fmt::Display for ScanFault {
    fn fmt<W: fmt::Write>(&self, f: &mut fmt::Formatter<W>) -> fmt::Result {
        match self {
            ScanFault::ReadFault => write!(f, "the folder or a file of it could not be read"),
            ScanFault::TwoNames { name } => {
                let name = name.as_str();
                write!(f, "two clip files have the name {name}")
            }
            ScanFault::TooLarge { total } => {
                write!(
                    f,
                    "the clip files have {total} bytes, more than {MAX_MEDIA_BYTES}"
                )
            }
            ScanFault::OutOfMemory => write!(f, "out of memory"),
        }
    }
}

impl Error for ScanFault {}

impl From<FileFault> for ScanFault {
    ghost from_gives = { λ error fault. fault ≡ fault_of error };

    fn from(error: FileFault) -> ScanFault {
        match error {
            FileFault::Failed => ScanFault::ReadFault,
            FileFault::OutOfMemory => ScanFault::OutOfMemory,
        }
    }
}

impl From<AllocError> for ScanFault {
    ghost from_gives = { λ _ fault. fault ≡ OutOfMemory };

    fn from(_error: AllocError) -> ScanFault {
        ScanFault::OutOfMemory
    }
}

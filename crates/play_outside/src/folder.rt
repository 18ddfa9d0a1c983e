//! The folder of configuration and media.
ghost use Rattle.std.specs.Prelude.{◌≡◌, string_bytes, map, MatchResult};
ghost use Rattle.play_outside.specs.declared.folder.FileFault.TheVariants.{OutOfMemory};
ghost use Rattle.play_outside.specs.FolderState.{FolderState};
ghost use Rattle.play_outside.specs.Folder.{Finds, Misses, config_at, names_in, bytes_at};

use std::alloc::{AllocError, Global};
use std::error::Error;
use std::fmt;

/// Why a file was not read.
#[derive(Clone, Copy, Debug, PartialEq, Eq)]
pub enum FileFault {
    /// The file is missing, or the device failed.
    Failed,
    /// Memory ran out before the file was read.
    OutOfMemory,
}

impl fmt::Display for FileFault {
    fn fmt<W: fmt::Write>(&self, f: &mut fmt::Formatter<W>) -> fmt::Result {
        match self {
            FileFault::Failed => write!(f, "the file is missing or could not be read"),
            FileFault::OutOfMemory => write!(f, "out of memory"),
        }
    }
}

impl Error for FileFault {}

impl From<AllocError> for FileFault {
    ghost from_gives = { λ _ fault. fault ≡ OutOfMemory };

    fn from(_error: AllocError) -> FileFault {
        FileFault::OutOfMemory
    }
}

/// Configurations by their paths, and media files by their folders and names.
pub trait MediaDir {
    /// The files that are held, if exposed, and the number of faults.
    ghost state: { Self → FolderState };

    /// Reads the bytes of the configuration at a path.
    fn config(&mut self, alloc: Global, path: &str) -> Result<Vec<u8>, FileFault>
        ensures { MatchResult result
            (λ bytes. Finds (config_at path.now) bytes.items (state self.old) (state self.new))
            (λ fault. Misses fault (state self.old) (state self.new)) };

    /// Lists the names of the files in a folder, in no stated order.
    fn names(&mut self, alloc: Global, folder: &str) -> Result<Vec<String>, FileFault>
        ensures { MatchResult result
            (λ names. Finds (names_in folder.now) (map string_bytes names.items) (state self.old) (state self.new))
            (λ fault. Misses fault (state self.old) (state self.new)) };

    /// Reads the bytes of a file in a folder.
    fn bytes(&mut self, alloc: Global, folder: &str, name: &str) -> Result<Vec<u8>, FileFault>
        ensures { MatchResult result
            (λ bytes. Finds (bytes_at folder.now name.now) bytes.items (state self.old) (state self.new))
            (λ fault. Misses fault (state self.old) (state self.new)) };
}

//! The words of a command line.
ghost use Rattle.std.specs.Prelude.{◌≡◌, IfOk, drop};
ghost use Rattle.std.specs.Vec.Iter.{into_iter_items};
ghost use Rattle.host_system.specs.Words.{TakesWords, run_fault_of};
ghost use Rattle.host_system.specs.declared.words.WordsFault.TheVariants.{OutOfMemory};

use server_setup::RunFault;
use std::alloc::{AllocError, Global};
use std::env::Args;
use std::error::Error;
use std::fmt;
use std::io::{self, ErrorKind};

/// Why the words of a command line could not be read.
#[derive(Clone, Copy, Debug, PartialEq, Eq)]
pub enum WordsFault {
    /// The system does not give them, or one of them is not UTF-8.
    Unreadable,
    /// Memory ran out.
    OutOfMemory,
}

impl fmt::Display for WordsFault {
    fn fmt<W: fmt::Write>(&self, f: &mut fmt::Formatter<W>) -> fmt::Result {
        match self {
            WordsFault::Unreadable => write!(f, "the words of the command line cannot be read"),
            WordsFault::OutOfMemory => write!(f, "out of memory"),
        }
    }
}

impl Error for WordsFault {}

impl From<AllocError> for WordsFault {
    ghost from_gives = { λ _ fault. fault ≡ OutOfMemory };

    fn from(_error: AllocError) -> WordsFault {
        WordsFault::OutOfMemory
    }
}

impl From<WordsFault> for RunFault {
    ghost from_gives = { λ error fault. fault ≡ run_fault_of error };

    /// Returns the fault of a run: unreadable words are no command line.
    fn from(error: WordsFault) -> RunFault {
        match error {
            WordsFault::Unreadable => RunFault::Usage,
            WordsFault::OutOfMemory => RunFault::OutOfMemory,
        }
    }
}

/// Returns the words after the program's own name, from the arguments that the system gives.
///
/// `Unreadable` comes exactly if the system fails for another cause than memory.
pub fn words_of(alloc: Global, args: io::Result<Args>) -> Result<Vec<String>, WordsFault>
    ensures { TakesWords args result }
{
    match args {
        Ok(args) => Ok(after_first(alloc, args)?),
        Err(error) if matches!(error.kind(), ErrorKind::OutOfMemory) => {
            Err(WordsFault::OutOfMemory)
        }
        Err(_) => Err(WordsFault::Unreadable),
    }
}

/// Returns the arguments without the first.
fn after_first(alloc: Global, args: Args) -> Result<Vec<String>, AllocError>
    ensures { IfOk result (λ words. words.items ≡ drop 1 (into_iter_items args)) }
{
    args.skip(1).collect(alloc)
}

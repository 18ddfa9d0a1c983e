//! The file of the running program.

use std::io::Eprint;
use std::path::PathBuf;
use std::rt::Files;
use std::{env, fmt};

/// The number of hexadecimal digits of a sum of sources.
const SUM_DIGITS: usize = 16;

/// The file that the running program was started from, if the system gives it. If the program was kept or installed by
/// the repository, the name of its file ends with the sum of its sources.
#[derive(Drop)]
pub struct ProgramFile {
    path: Option<PathBuf>,
}

impl ProgramFile {
    /// Asks the system for the file of the running program, following links, and does not open it.
    pub fn find<R: Files + AllocGlobal>(rt: &R) -> ProgramFile {
        ProgramFile {
            path: env::current_exe(rt).ok(),
        }
    }

    /// Returns the sum of the sources that the program was built from, if its file's name ends with one.
    pub fn sources(&self) -> Option<&str> {
        let ending = self.path.as_ref()?.extension()?;
        if is_sum(ending) { Some(ending) } else { None }
    }

    /// Reports on standard error from which sources the program was built, if that is known.
    pub fn say<E: Eprint>(&self, errors: &E, program: &str) {
        if let Some(sources) = self.sources() {
            let _ = errors.eprintln(format_args!("{program}: built from {sources}"));
        }
    }
}

impl fmt::Display for ProgramFile {
    /// Writes from which sources the program was built, as the end of a line, or nothing if that is not known.
    fn fmt<W: fmt::Write>(&self, f: &mut fmt::Formatter<W>) -> fmt::Result {
        match self.sources() {
            Some(sources) => write!(f, ", built from {sources}"),
            None => Ok(()),
        }
    }
}

/// Returns whether a text is a sum of sources.
fn is_sum(text: &str) -> bool {
    text.len() == SUM_DIGITS && text.bytes().all(|digit| digit.is_ascii_hexdigit())
}

//! The names of the file of a history, and how it and its log are made.
ghost use Rattle.std.specs.Prelude.{◌≡◌, ◌++◌, IfOk, codes, string_bytes};
ghost use Rattle.real_devices.specs.declared.journal_names.PartFault.TheVariants.{Failed};

use crate::complaint::{complain, say_kept, say_stays};
use crate::used_files::is_same_file;
use std::alloc::{AllocError, Global};
use std::fmt::{Display, Write};
use std::fs::{self, File, Metadata, OpenOptions, TryLockError};
use std::io::{self, Eprint, Error, ErrorKind};
use std::rt::Files;

/// The end of the name while the history is not whole.
const PART: &str = ".part";

/// The end of the name of the log.
const LOG: &str = ".log";

/// The numbers of files that are kept are below this one.
const MOST_KEPT: u32 = 1_000_000;

/// How many bytes a number and the dot before it have at most.
const NUMBER_BYTES: usize = 8;

/// How often the file of an earlier run is looked for while other servers move what is found.
const LOOKS: u32 = 100;

/// Why the name of a file that is not whole cannot be used.
const NO_FILE: &str = "what stands here is no regular file";

/// Why the file of a history cannot get its name.
const GONE: &str = "the history that was written here was moved or removed meanwhile";

/// The names of the file of a history, and the lock that a server holds on them as long as it runs.
#[derive(Drop)]
pub(crate) struct JournalNames {
    /// The name of the file when it is whole.
    path: String,
    /// The name of the file until then.
    part: String,
    /// The new name of a file that is moved out of the way.
    kept: String,
    /// The file that an earlier run left at `part`. It stays locked, for a server that opened it there before it was
    /// moved.
    left: Option<File>,
}

/// Why there is no file to write a history to.
#[derive(Drop)]
pub(crate) enum PartFault {
    /// Another server has it.
    Taken,
    /// A call of the system failed.
    Failed(Error),
}

impl From<Error> for PartFault {
    ghost from_gives = { λ error fault. fault ≡ Failed error };

    fn from(error: Error) -> PartFault {
        PartFault::Failed(error)
    }
}

/// What was found at the name of a file that is to be made.
#[derive(Drop)]
enum Look {
    /// Nothing has this name.
    Free,
    /// An earlier run has left this file. It is locked, and no longer has the name.
    Left(File),
    /// Another server has moved the file meanwhile.
    Moved,
}

/// A file that was made and is locked.
#[derive(Drop)]
pub(crate) struct NewFile {
    /// The file, which is empty.
    pub(crate) file: File,
    /// Its metadata.
    pub(crate) found: Metadata,
    /// The file that an earlier run left at its name. It is locked, too.
    left: Option<File>,
}

impl JournalNames {
    /// Returns the names for a path. They take no further memory later.
    pub(crate) fn new(alloc: Global, path: &str) -> Result<JournalNames, AllocError>
        ensures path { IfOk result (λ names. string_bytes names.path ≡ path.now) }
        ensures part { IfOk result (λ names. string_bytes names.part ≡ path.now ++ codes ".part") }
    {
        let mut part = String::with_capacity(alloc, path.len().saturating_add(PART.len()))?;
        part.push_str(path)?;
        part.push_str(PART)?;
        let kept = String::with_capacity(alloc, part.len().saturating_add(NUMBER_BYTES))?;
        Ok(JournalNames {
            path: String::from_str(alloc, path)?,
            part,
            kept,
            left: None,
        })
    }

    /// Returns the name of the file when it is whole.
    pub(crate) fn path(&self) -> &str
        ensures { result.now ≡ string_bytes self.now.path }
    {
        self.path.as_str()
    }

    /// Returns the name of the file while it is not whole.
    pub(crate) fn part(&self) -> &str
        ensures { result.now ≡ string_bytes self.now.part }
    {
        self.part.as_str()
    }

    /// Makes the file, which is empty, and locks it. A file that an earlier run left at its name is kept under a name
    /// with a number, or removed if it is empty.
    ///
    /// A server holds these locks until it ends, and moves or removes a file only while it holds the lock on it. So of
    /// two servers one is refused, whenever they start, and neither overwrites what the other one writes.
    pub(crate) fn make_part<R: Files<File = File> + Eprint>(
        &mut self,
        rt: &R,
    ) -> Result<(File, Metadata), PartFault> {
        let NewFile { file, found, left } = make(rt, self.part.as_str(), &mut self.kept)?;
        self.left = left;
        Ok((file, found))
    }

    /// Gives the file its name, once it is whole. A file that has the name already is kept under a name with a number,
    /// unless it is empty.
    pub(crate) fn give<R: Files + Eprint>(&mut self, rt: &R) -> io::Result<()> {
        if holds_bytes(rt, self.path.as_str())? {
            keep(rt, self.path.as_str(), &mut self.kept)?;
        }
        fs::rename(rt, self.part.as_str(), self.path.as_str())
    }

    /// Returns whether this file is still at the name for a history that is not whole. If not, it reports that somebody
    /// moved it; the file at the name is not to be touched then.
    pub(crate) fn are_of<R: Files + Eprint>(&self, rt: &R, file: &File) -> io::Result<bool> {
        let is_here = is_at(rt, self.part.as_str(), &file.metadata()?)?;
        if !is_here {
            complain(rt, self.part.as_str(), &GONE);
        }
        Ok(is_here)
    }

    /// Reports why the file keeps the name of one that is not whole.
    pub(crate) fn say_stays<R: Eprint, D: Display>(&self, rt: &R, why: &D) {
        say_stays(rt, self.part.as_str(), why);
    }

    /// Removes the file, to which nothing was written.
    pub(crate) fn remove<R: Files>(&self, rt: &R) -> io::Result<()> {
        fs::remove_file(rt, self.part.as_str())
    }
}

/// Returns the name of the log of a history with this path.
pub(crate) fn log_name(alloc: Global, path: &str) -> Result<String, AllocError>
    ensures { IfOk result (λ name. string_bytes name ≡ path.now ++ codes ".log") }
{
    let mut name = String::with_capacity(alloc, path.len().saturating_add(LOG.len()))?;
    name.push_str(path)?;
    name.push_str(LOG)?;
    Ok(name)
}

/// Makes the file of a log, which is empty, and locks it. A file that an earlier run left at its name is kept under a
/// name with a number, or removed if it is empty. The folder is synced to the disk, if the system allows that, so that
/// the name is there after a power cut.
pub(crate) fn make_log<R: Files<File = File> + Eprint>(
    rt: &R,
    alloc: Global,
    name: &str,
) -> Result<NewFile, PartFault> {
    let Ok(mut kept) = String::with_capacity(alloc, name.len().saturating_add(NUMBER_BYTES)) else {
        return Err(PartFault::Failed(Error::from(ErrorKind::OutOfMemory)));
    };
    let made = make(rt, name, &mut kept)?;
    let _ = sync_folder(rt, name);
    Ok(made)
}

/// Syncs the folder of a file to the disk.
fn sync_folder<R: Files<File = File>>(rt: &R, path: &str) -> io::Result<()> {
    let folder = match path.rsplit_once('/') {
        Some(("", _)) => "/",
        Some((folder, _)) => folder,
        None => ".",
    };
    fs::open(rt, folder)?.sync_all()
}

/// Makes a file of this name, which is empty, and locks it. A file that an earlier run left there is kept under a name
/// with a number, which is written to `kept`, or removed if it is empty.
fn make<R: Files<File = File> + Eprint>(
    rt: &R,
    name: &str,
    kept: &mut String,
) -> Result<NewFile, PartFault> {
    let left = take_left(rt, name, kept)?;
    let file = match File::create_new(rt, name) {
        Ok(file) => file,
        Err(error) if matches!(error.kind(), ErrorKind::AlreadyExists) => {
            return Err(PartFault::Taken);
        }
        Err(error) => return Err(PartFault::Failed(error)),
    };
    lock(&file)?;
    let found = file.metadata()?;
    if is_at(rt, name, &found)? {
        Ok(NewFile { file, found, left })
    } else {
        Err(PartFault::Taken)
    }
}

/// Moves or removes the file that an earlier run left at a name, and returns it locked, if there was one.
fn take_left<R: Files<File = File> + Eprint>(
    rt: &R,
    name: &str,
    kept: &mut String,
) -> Result<Option<File>, PartFault> {
    for _ in 0..LOOKS {
        match take_one(rt, name, kept)? {
            Look::Free => return Ok(None),
            Look::Left(file) => return Ok(Some(file)),
            Look::Moved => {}
        }
    }
    Err(PartFault::Taken)
}

/// Locks the file that an earlier run left at a name, and moves it, or removes it if it is empty.
fn take_one<R: Files<File = File> + Eprint>(
    rt: &R,
    name: &str,
    kept: &mut String,
) -> Result<Look, PartFault> {
    match fs::symlink_metadata(rt, name) {
        Ok(found) if found.is_file() => {}
        Ok(_) => return Err(PartFault::Failed(Error::new(ErrorKind::AlreadyExists, NO_FILE))),
        Err(error) if is_missing(&error) => return Ok(Look::Free),
        Err(error) => return Err(PartFault::Failed(error)),
    }
    let mut how = OpenOptions::new();
    let file = match how.write(true).open(rt, name) {
        Ok(file) => file,
        Err(error) if is_missing(&error) => return Ok(Look::Moved),
        Err(error) => return Err(PartFault::Failed(error)),
    };
    lock(&file)?;
    let found = file.metadata()?;
    if !is_at(rt, name, &found)? {
        return Ok(Look::Moved);
    }
    if found.len() > 0 {
        keep(rt, name, kept)?;
    } else {
        fs::remove_file(rt, name)?;
    }
    Ok(Look::Left(file))
}

/// Locks a file for as long as it is open. It fails if another server has locked it.
fn lock(file: &File) -> Result<(), PartFault> {
    match file.try_lock() {
        Ok(()) => Ok(()),
        Err(TryLockError::WouldBlock) => Err(PartFault::Taken),
        Err(TryLockError::Error(error)) => Err(PartFault::Failed(error)),
    }
}

/// Returns whether the file at a path is the one with this metadata.
pub(crate) fn is_at<R: Files>(rt: &R, path: &str, file: &Metadata) -> io::Result<bool> {
    match fs::symlink_metadata(rt, path) {
        Ok(found) => Ok(is_same_file(&found, file)),
        Err(error) if is_missing(&error) => Ok(false),
        Err(error) => Err(error),
    }
}

/// Renames a file to the first name with a number that is free.
fn keep<R: Files + Eprint>(rt: &R, path: &str, kept: &mut String) -> io::Result<()> {
    for number in 1..MOST_KEPT {
        kept.clear();
        write!(kept, "{path}.{number}")?;
        if is_free(rt, kept.as_str())? {
            fs::rename(rt, path, kept.as_str())?;
            say_kept(rt, path, kept.as_str());
            return Ok(());
        }
    }
    Err(Error::from(ErrorKind::AlreadyExists))
}

/// Returns whether a path is of something other than an empty file.
fn holds_bytes<R: Files>(rt: &R, path: &str) -> io::Result<bool> {
    match fs::symlink_metadata(rt, path) {
        Ok(found) => Ok(!found.is_file() || found.len() > 0),
        Err(error) if is_missing(&error) => Ok(false),
        Err(error) => Err(error),
    }
}

/// Returns whether nothing has this path.
fn is_free<R: Files>(rt: &R, path: &str) -> io::Result<bool> {
    match fs::symlink_metadata(rt, path) {
        Ok(_) => Ok(false),
        Err(error) if is_missing(&error) => Ok(true),
        Err(error) => Err(error),
    }
}

/// Returns whether a call of the system failed because nothing has the path.
fn is_missing(error: &Error) -> bool {
    matches!(error.kind(), ErrorKind::NotFound)
}

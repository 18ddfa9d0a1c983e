//! Configurations and media in files of the system.
ghost use Rattle.std.specs.Prelude.{◌≡◌, None};
ghost use Rattle.play_outside.specs.Folder.{Misses};
ghost use Rattle.host_system.specs.inner.Faults.{fault_of};

use crate::clip_bytes::ClipBytes;
use crate::clip_count::{ClipCount, Progress};
use crate::complaint::{complain, complain_of_config, complain_of_file};
use crate::read_fault::ReadFault;
use crate::unreadable::Unreadable;
use play_outside::{FileFault, MediaDir};
use std::alloc::Global;
use std::fs;
use std::io::{Eprint, Error, ErrorKind, Read};
use std::rt::Files;

/// Reads configurations and media from regular files of the system. It reports on standard error which file or folder
/// could not be read, why a configuration is refused, why a file is no clip, with which file the clips have too many
/// bytes, and how many clips are read. Its state does not hold the contents of the files.
#[derive(Drop)]
pub struct FolderMedia<R> {
    rt: R,
    program: &'static str,
    clips: ClipCount,
    clip_bytes: ClipBytes,
    faults: u64,
}

impl<R: Files + Eprint + AllocGlobal + Clone + Drop> FolderMedia<R> {
    /// Returns the files of the system. No read of them has failed yet. Each report begins with `program`, and
    /// `progress` is how much is reported about the clips that are read.
    pub fn new(rt: R, program: &'static str, progress: Progress) -> FolderMedia<R>
        ensures { ⟦<FolderMedia<R> as MediaDir>⟧.state result ≡ record { files = None; faults = 0 } }
    {
        FolderMedia {
            rt,
            program,
            clips: ClipCount::new(progress),
            clip_bytes: ClipBytes::new(),
            faults: 0,
        }
    }

    /// Returns the fault, and counts it unless memory ran out.
    fn missed(&mut self, fault: ReadFault) -> FileFault
        ensures fault { result ≡ fault_of fault }
        ensures misses { Misses result (⟦<FolderMedia<R> as MediaDir>⟧.state self.old) (⟦<FolderMedia<R> as MediaDir>⟧.state self.new) }
    {
        if fault.is_memory() {
            return FileFault::OutOfMemory;
        }
        self.faults = self.faults.saturating_add(1);
        FileFault::Failed
    }
}

impl<R: Files + Eprint + AllocGlobal + Clone + Drop> MediaDir for FolderMedia<R> {
    ghost state = { λ m. record { files = None; faults = m.faults } };

    /// Reads the file of a configuration. If the configuration is refused, standard error says why.
    fn config(&mut self, alloc: Global, path: &str) -> Result<Vec<u8>, FileFault> {
        match read_file(&self.rt, alloc, path) {
            Ok(bytes) => {
                complain_of_config(&self.rt, alloc, self.program, path, bytes.as_slice());
                Ok(bytes)
            }
            Err(fault) => {
                complain(&self.rt, self.program, path, &fault);
                Err(self.missed(fault))
            }
        }
    }

    /// Lists the names of all entries of a folder, folders and links too. A name that is not UTF-8 is passed over.
    fn names(&mut self, alloc: Global, folder: &str) -> Result<Vec<String>, FileFault> {
        match list_names(&self.rt, alloc, folder) {
            Ok(names) => {
                self.clips
                    .begin(&self.rt, self.program, folder, names.as_slice());
                self.clip_bytes = ClipBytes::new();
                Ok(names)
            }
            Err(fault) => {
                complain(&self.rt, self.program, folder, &fault);
                Err(self.missed(fault))
            }
        }
    }

    /// Reads a file of a folder. If it is no clip, standard error says why. If the clips so far have more bytes than
    /// `MAX_MEDIA_BYTES` with it, standard error says how many.
    fn bytes(&mut self, alloc: Global, folder: &str, name: &str) -> Result<Vec<u8>, FileFault> {
        match read_file_in(&self.rt, alloc, folder, name) {
            Ok(bytes) => {
                if let Some(why) = Unreadable::find(alloc, bytes.as_slice()) {
                    self.clips.end_line(&self.rt);
                    complain_of_file(&self.rt, self.program, folder, name, &why);
                }
                self.clips.add(&self.rt, self.program, folder);
                if let Some(sum) = self.clip_bytes.add(bytes.len()) {
                    self.clips.end_line(&self.rt);
                    complain_of_file(&self.rt, self.program, folder, name, &sum);
                }
                Ok(bytes)
            }
            Err(fault) => {
                self.clips.end_line(&self.rt);
                complain_of_file(&self.rt, self.program, folder, name, &fault);
                Err(self.missed(fault))
            }
        }
    }
}

/// Reads a whole regular file. Any other file is not opened, since a read of it may wait forever or have no end.
fn read_file<R: Files>(rt: &R, alloc: Global, path: &str) -> Result<Vec<u8>, ReadFault> {
    if !fs::metadata(rt, path)?.is_file() {
        return Err(ReadFault::NotRegular);
    }
    let mut file = fs::open(rt, path)?;
    let mut bytes = Vec::new(alloc);
    file.read_to_end(&mut bytes)?;
    Ok(bytes)
}

/// Reads a whole file of a folder.
fn read_file_in<R: Files>(
    rt: &R,
    alloc: Global,
    folder: &str,
    name: &str,
) -> Result<Vec<u8>, ReadFault> {
    let path = format!(in alloc; "{folder}/{name}").map_err(Error::from)?;
    read_file(rt, alloc, path.as_str())
}

/// Lists the names of all entries of a folder, except those that are not UTF-8.
fn list_names<R: Files + AllocGlobal + Clone + Drop>(
    rt: &R,
    alloc: Global,
    folder: &str,
) -> Result<Vec<String>, ReadFault> {
    let mut names = Vec::new(alloc);
    for entry in fs::read_dir(rt, folder)? {
        match entry {
            Ok(entry) => names
                .push(String::from_str(alloc, entry.file_name()).map_err(Error::from)?)
                .map_err(Error::from)?,
            Err(error) if matches!(error.kind(), ErrorKind::InvalidFilename) => {}
            Err(error) => return Err(ReadFault::System(error)),
        }
    }
    Ok(names)
}

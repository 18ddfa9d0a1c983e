//! Which files are in use already.

use crate::outs::not_made;
use play_outside::FileFault;
use play_types::Config;
use std::alloc::{AllocError, Global};
use std::fmt::{self, Display, Formatter, Write};
use std::fs::{self, DirEntry, File, Metadata};
use std::io::{Eprint, ErrorKind};
use std::os::unix::fs::{FileTypeExt, MetadataExt};
use std::rt::Files;

/// The end of the name of a clip's file, in upper or lower case.
const CLIP_ENDING: &[u8] = b".rclp";

/// What a file is used for.
#[derive(Clone, Copy, Debug, PartialEq, Eq)]
pub(crate) enum Use {
    /// It is the configuration.
    Config,
    /// It is the history that the run goes on from.
    Resumed,
    /// It is a clip of the media folder.
    Clip,
    /// It is an output, or holds the history.
    Output,
}

impl Display for Use {
    /// Writes why no output may write to such a file.
    fn fmt<W: Write>(&self, f: &mut Formatter<W>) -> fmt::Result {
        match self {
            Use::Config => f.write_str("this file is the configuration"),
            Use::Resumed => f.write_str("this file is the history that the run goes on from"),
            Use::Clip => f.write_str("this file is a clip of the media folder"),
            Use::Output => f.write_str("more than one output has this file"),
        }
    }
}

/// Returns whether two metadata are of one file.
pub(crate) fn is_same_file(one: &Metadata, other: &Metadata) -> bool {
    one.dev() == other.dev() && one.ino() == other.ino()
}

/// A file, by its device and its inode number, which all paths and links to it share.
#[derive(Clone, Copy)]
struct UsedFile {
    device: u64,
    number: u64,
    has: Use,
}

/// The files in use, which no further output may have.
#[derive(Drop)]
pub(crate) struct UsedFiles {
    files: Vec<UsedFile>,
}

impl UsedFiles {
    /// Returns no files.
    pub(crate) fn new(alloc: Global) -> UsedFiles {
        UsedFiles {
            files: Vec::new(alloc),
        }
    }

    /// Adds a file with its use, unless it is a character device: any number of outputs may write to the null device.
    pub(crate) fn add(&mut self, found: &Metadata, has: Use) -> Result<(), AllocError> {
        if found.file_type().is_char_device() {
            return Ok(());
        }
        let file = UsedFile {
            device: found.dev(),
            number: found.ino(),
            has,
        };
        match self.files.push(file) {
            Ok(()) => Ok(()),
            Err(_) => Err(AllocError),
        }
    }

    /// Returns the use of a file, if it is in use.
    pub(crate) fn find(&self, found: &Metadata) -> Option<Use> {
        for file in &self.files {
            if file.device == found.dev() && file.number == found.ino() {
                return Some(file.has);
            }
        }
        None
    }
}

/// Returns the files that no output may have: the configuration at `source`, the history at `resumed`, and the clips of
/// the media folder, as far as the system finds them. `Failed` comes if the folder exists and cannot be listed, since any output might be a clip then;
/// standard error says so.
pub(crate) fn files_in_use<R: Files<File = File> + Eprint + AllocGlobal + Copy + Drop>(
    rt: R,
    alloc: Global,
    config: &Config,
    source: Option<&str>,
    resumed: Option<&str>,
) -> Result<UsedFiles, FileFault> {
    let mut used = UsedFiles::new(alloc);
    add_file(&rt, source, Use::Config, &mut used)?;
    add_file(&rt, resumed, Use::Resumed, &mut used)?;
    add_clips(rt, config.media().as_str(), &mut used)?;
    Ok(used)
}

/// Adds the file at a path with its use, if there is a path and a file.
fn add_file<R: Files>(
    rt: &R,
    path: Option<&str>,
    has: Use,
    used: &mut UsedFiles,
) -> Result<(), AllocError> {
    let Some(path) = path else {
        return Ok(());
    };
    match fs::metadata(rt, path) {
        Ok(found) => used.add(&found, has),
        Err(_) => Ok(()),
    }
}

/// Adds the clips of a folder, if there is one. An entry whose name is not UTF-8 is no clip.
fn add_clips<R: Files<File = File> + Eprint + AllocGlobal + Copy + Drop>(
    rt: R,
    folder: &str,
    used: &mut UsedFiles,
) -> Result<(), FileFault> {
    let entries = match fs::read_dir(&rt, folder) {
        Ok(entries) => entries,
        Err(error) if matches!(error.kind(), ErrorKind::NotFound) => return Ok(()),
        Err(error) => return Err(not_made(&rt, folder, &error)),
    };
    for entry in entries {
        match entry {
            Ok(entry) => add_clip(rt, &entry, used)?,
            Err(error) if matches!(error.kind(), ErrorKind::InvalidFilename) => {}
            Err(error) => return Err(not_made(&rt, folder, &error)),
        }
    }
    Ok(())
}

/// Adds an entry of the media folder, if it has the name of a clip.
fn add_clip<R: Files + AllocGlobal + Drop>(
    rt: R,
    entry: &DirEntry<R>,
    used: &mut UsedFiles,
) -> Result<(), AllocError> {
    if !is_clip(entry.file_name()) {
        return Ok(());
    }
    match fs::metadata(&rt, entry.path()) {
        Ok(found) => used.add(&found, Use::Clip),
        Err(_) => Ok(()),
    }
}

/// Returns whether a file has the name of a clip.
fn is_clip(name: &str) -> bool {
    let name = name.as_bytes();
    match name.len().checked_sub(CLIP_ENDING.len()) {
        Some(at) => name[at..].eq_ignore_ascii_case(CLIP_ENDING),
        None => false,
    }
}

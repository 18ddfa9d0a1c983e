//! A folder of configuration and media in memory.
ghost use Rattle.std.specs.Prelude.{◌≡◌, ◌&&◌, Some, IfOk, map, filter, find, option_map, string_bytes, bytes_eq};
ghost use Rattle.play_outside.specs.memory.Media.{files_of};

use super::planned_faults::PlannedFaults;
use crate::{FileFault, MediaDir};
use std::alloc::{AllocError, Global};

/// A configuration in memory.
#[derive(Drop)]
pub struct MemConfig {
    pub path: String,
    pub bytes: Vec<u8>,
}

/// A media file in memory.
#[derive(Drop)]
pub struct MemFile {
    pub folder: String,
    pub name: String,
    pub bytes: Vec<u8>,
}

/// Configurations and media files in memory. It exposes what it holds.
#[derive(Drop)]
pub struct MemMedia {
    configs: Vec<MemConfig>,
    files: Vec<MemFile>,
    planned: PlannedFaults,
}

impl MemMedia {
    /// Creates a folder of these files. The calls whose numbers, counted from 1 over all three methods, are in `fails` return
    /// `Failed`, and so does each call for a file that is not there.
    pub fn new(configs: Vec<MemConfig>, files: Vec<MemFile>, fails: Vec<u64>) -> MemMedia
        ensures { ⟦<MemMedia as MediaDir>⟧.state result ≡ record { files = Some (files_of configs.items files.items); faults = 0 } }
    {
        MemMedia {
            configs,
            files,
            planned: PlannedFaults::new(fails),
        }
    }

    /// Returns how often a call has failed.
    pub fn faults(&self) -> u64
        ensures { result ≡ (⟦<MemMedia as MediaDir>⟧.state self.now).faults }
    {
        self.planned.count
    }
}

impl MediaDir for MemMedia {
    ghost state = { λ m. record { files = Some (files_of m.configs.items m.files.items); faults = m.planned.count } };

    fn config(&mut self, alloc: Global, path: &str) -> Result<Vec<u8>, FileFault> {
        let planned = self.planned.fails_now();
        match find_config(self.configs.as_slice(), path) {
            Some(config) if !planned => Ok(Vec::from_slice(alloc, config.bytes.as_slice())?),
            _ => {
                self.planned.raise();
                Err(FileFault::Failed)
            }
        }
    }

    fn names(&mut self, alloc: Global, folder: &str) -> Result<Vec<String>, FileFault> {
        if self.planned.fails_now() {
            self.planned.raise();
            return Err(FileFault::Failed);
        }
        Ok(names_of(alloc, self.files.as_slice(), folder)?)
    }

    fn bytes(&mut self, alloc: Global, folder: &str, name: &str) -> Result<Vec<u8>, FileFault> {
        let planned = self.planned.fails_now();
        match find_file(self.files.as_slice(), folder, name) {
            Some(file) if !planned => Ok(Vec::from_slice(alloc, file.bytes.as_slice())?),
            _ => {
                self.planned.raise();
                Err(FileFault::Failed)
            }
        }
    }
}

/// Returns the first configuration of that path.
fn find_config<'a>(configs: &'a [MemConfig], path: &str) -> Option<&'a MemConfig>
    ensures { option_map (λ config. config.now) result ≡ find (λ config. bytes_eq (string_bytes config.path) path.now) configs.now }
{
    configs.iter().find(|config| config.path.as_str() == path)
}

/// Returns the first file of that folder and name.
fn find_file<'a>(files: &'a [MemFile], folder: &str, name: &str) -> Option<&'a MemFile>
    ensures { option_map (λ file. file.now) result ≡ find (λ file. bytes_eq (string_bytes file.folder) folder.now && bytes_eq (string_bytes file.name) name.now) files.now }
{
    files.iter().find(|file| file.folder.as_str() == folder && file.name.as_str() == name)
}

/// Returns the names of the files of that folder.
fn names_of(alloc: Global, files: &[MemFile], folder: &str) -> Result<Vec<String>, AllocError>
    ensures { IfOk result (λ names. map string_bytes names.items ≡ map (λ file. string_bytes file.name) (filter (λ file. bytes_eq (string_bytes file.folder) folder.now) files.now)) }
{
    let mut names = Vec::new(alloc);
    for file in files {
        if file.folder.as_str() == folder {
            names.push(file.name.clone()?)?;
        }
    }
    Ok(names)
}

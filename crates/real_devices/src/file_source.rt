//! Reading from a regular file.
ghost use Rattle.std.specs.Prelude.{◌≡◌, ◌<◌, None, IfOk, length};
ghost use Rattle.play_outside.specs.Source.{Reads};
ghost use Rattle.real_devices.specs.Stream.{ReadsFrom};

use crate::complaint::complain;
use crate::outs::not_made;
use crate::patience::INTERRUPTIONS;
use play_outside::{FileFault, ReadStep, Source};
use std::alloc::Global;
use std::fs::{self, File};
use std::io::{Eprint, ErrorKind, Read};
use std::rt::Files;

/// Reads a file from its beginning, and reports on standard error why a read failed. Its state does not hold what is
/// left.
#[derive(Drop)]
pub struct FileSource<F, E> {
    file: F,
    errors: E,
    path: String,
    faults: u64,
}

impl<R: Files<File = File> + Eprint + Drop> FileSource<File, R> {
    /// Opens a regular file to read. Any other file is not opened, since a read of it may wait forever or have no end.
    /// `Failed` comes if the file is missing, is not regular, or cannot be opened; standard error names the cause.
    pub fn open(rt: R, alloc: Global, path: &str) -> Result<FileSource<File, R>, FileFault>
        ensures { IfOk result (λ source. ⟦<FileSource<File, R> as Source>⟧.state source ≡ record { left = None; faults = 0 }) }
    {
        let name = String::from_str(alloc, path)?;
        match fs::metadata(&rt, path) {
            Ok(found) if !found.is_file() => {
                complain(&rt, path, &"not a regular file");
                return Err(FileFault::Failed);
            }
            Ok(_) => {}
            Err(error) => return Err(not_made(&rt, path, &error)),
        }
        match fs::open(&rt, path) {
            Ok(file) => Ok(FileSource::new(file, rt, name)),
            Err(error) => Err(not_made(&rt, path, &error)),
        }
    }
}

impl<F: Read + Drop, E: Eprint + Drop> FileSource<F, E> {
    /// Returns a source over a file with this path. No read has failed yet.
    pub fn new(file: F, errors: E, path: String) -> FileSource<F, E>
        ensures { ⟦<FileSource<F, E> as Source>⟧.state result ≡ record { left = None; faults = 0 } }
    {
        FileSource {
            file,
            errors,
            path,
            faults: 0,
        }
    }
}

impl<F: Read + Drop, E: Eprint + Drop> Source for FileSource<F, E> {
    ghost state = { λ s. record { left = None; faults = s.faults } };

    /// Reads the next bytes. An interrupted read is made again, but for the last of `INTERRUPTIONS` interruptions.
    fn read(&mut self, buf: &mut [u8]) -> ReadStep
        requires { 0 < length buf.old }
        ensures reads { Reads result buf.new (⟦<FileSource<F, E> as Source>⟧.state self.old) (⟦<FileSource<F, E> as Source>⟧.state self.new) }
        ensures stream { ReadsFrom result buf.new (F.remaining self.old.file) (F.remaining self.new.file) }
    {
        for _ in 0..INTERRUPTIONS {
            match self.file.read(buf) {
                Ok(0) => return ReadStep::End,
                Ok(count) => return ReadStep::Got(count),
                Err(error) if matches!(error.kind(), ErrorKind::Interrupted) => {}
                Err(error) => {
                    complain(&self.errors, self.path.as_str(), &error);
                    break;
                }
            }
        }
        self.faults = self.faults.saturating_add(1);
        ReadStep::Failed
    }
}

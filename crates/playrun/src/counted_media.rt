//! How many bytes the files of a media folder have.

use play_outside::{FileFault, MediaDir};
use std::alloc::Global;
use std::cell::Cell;

/// Reads the configuration and the media of another folder, and counts the bytes of the media files as a server does:
/// an empty file counts as one byte.
#[derive(Drop)]
pub struct CountedMedia<'a, M> {
    media: M,
    held: &'a Cell<u64>,
}

impl<'a, M: MediaDir + Drop> CountedMedia<'a, M> {
    /// Returns the folder over another one. The bytes that are read from its media files are added to `held`.
    pub fn new(media: M, held: &'a Cell<u64>) -> CountedMedia<'a, M> {
        CountedMedia { media, held }
    }

    /// Adds the bytes of a file to those of the files before it.
    fn count(&self, bytes: usize) {
        let held = self.held.get().saturating_add(bytes.max(1) as u64);
        self.held.set(held);
    }
}

impl<'a, M: MediaDir + Drop> MediaDir for CountedMedia<'a, M> {
    ghost state = { λ m. M.state m.media };

    fn config(&mut self, alloc: Global, path: &str) -> Result<Vec<u8>, FileFault> {
        self.media.config(alloc, path)
    }

    fn names(&mut self, alloc: Global, folder: &str) -> Result<Vec<String>, FileFault> {
        self.media.names(alloc, folder)
    }

    /// Reads a file of a folder, and counts its bytes.
    fn bytes(&mut self, alloc: Global, folder: &str, name: &str) -> Result<Vec<u8>, FileFault> {
        let found = self.media.bytes(alloc, folder, name);
        if let Ok(bytes) = &found {
            self.count(bytes.len());
        }
        found
    }
}

//! The readers of a named pipe.
use crate::live::door::{ReaderDoor, Visit, VisitSender};
use crate::pace::millis;
use crate::used_files::is_same_file;
use live_output::LiveOutput;
use std::alloc::Global;
use std::fs::{self, File, Metadata, OpenOptions};
use std::io::{self, Error, ErrorKind, Read};
use std::net::TcpStream;
use std::os::fd::{AsRawFd, OwnedFd};
use std::os::unix::fs::FileTypeExt;
use std::rt::Files;
use std::time::Clock;

/// How many milliseconds lie between two looks at the path of a pipe.
const LOOK_MILLIS: u64 = 100;

/// The most reads to empty a pipe. It holds a megabyte at most.
const MOST_READS: u32 = 1_024;

/// Returns whether a path is of a named pipe.
pub(crate) fn is_pipe<R: Files>(rt: &R, path: &str) -> bool {
    match fs::metadata(rt, path) {
        Ok(found) => found.file_type().is_fifo(),
        Err(_) => false,
    }
}

/// The writing end of a pipe that was opened.
#[derive(Drop)]
pub struct OpenPipe {
    pub(crate) path: String,
    pub(crate) end: File,
    pub(crate) found: Metadata,
}

/// Opens a named pipe to write without waiting for a reader, and returns it with its metadata. No write to it waits. An
/// end that reads and writes, whose open never waits, is opened first and closed again.
pub(crate) fn open_pipe<R: Files<File = File>>(rt: &R, path: &str) -> io::Result<(File, Metadata)> {
    if !is_pipe(rt, path) {
        return Err(Error::from(ErrorKind::InvalidInput));
    }
    let both = OpenOptions::new().read(true).write(true).open(rt, path)?;
    let end = OpenOptions::new().write(true).open(rt, path)?;
    set_nonblocking(&end)?;
    let found = end.metadata()?;
    drop(both);
    Ok((end, found))
}

/// Makes the calls on a pipe or a device return at once. The system has one call for these and for sockets.
pub(crate) fn set_nonblocking(file: &File) -> io::Result<()> {
    TcpStream::from(OwnedFd::from(file.try_clone()?)).set_nonblocking(true)
}

/// Opens the pipe of `end` once more, to read and write, even if another file has its path by now. The open never
/// waits.
pub(crate) fn open_again<R: Files<File = File>>(
    rt: &R,
    alloc: Global,
    end: &File,
) -> io::Result<File> {
    let path = path_of(alloc, end)?;
    OpenOptions::new()
        .read(true)
        .write(true)
        .open(rt, path.as_str())
}

/// Returns the path by which Linux lets an open file be opened again.
fn path_of(alloc: Global, file: &File) -> io::Result<String> {
    Ok(format!(in alloc; "/proc/self/fd/{}", file.as_raw_fd())?)
}

/// A named pipe. Only the results of writes show whether it has readers.
#[derive(Drop)]
pub(crate) struct PipeDoor<T> {
    rt: T,
    alloc: Global,
    path: String,
    /// The end that is written to, while the output does not have it.
    end: Option<File>,
    /// The metadata of the pipe.
    found: Metadata,
    is_read: bool,
    /// Whether the path was of no pipe at the last look.
    is_lost: bool,
    /// The millisecond of the clock from which on it looks at the path again.
    due: u64,
}

impl<T: Files<File = File> + Clock + Drop> PipeDoor<T> {
    /// Returns the door of a pipe that was opened.
    pub(crate) fn new(rt: T, alloc: Global, pipe: OpenPipe) -> PipeDoor<T> {
        let OpenPipe { path, end, found } = pipe;
        PipeDoor {
            rt,
            alloc,
            path,
            end: Some(end),
            found,
            is_read: false,
            is_lost: false,
            due: 0,
        }
    }

    /// Returns its runtime and its allocator.
    pub(crate) fn runtime(&self) -> (T, Global)
    where
        T: Copy,
    {
        (self.rt, self.alloc)
    }

    /// Looks whether another pipe has the path, and if so, takes it in place of the open one.
    fn look_at_path(&mut self, output: &mut LiveOutput<File>, sender: &mut VisitSender) {
        let Ok(found) = fs::metadata(&self.rt, self.path.as_str()) else {
            return;
        };
        if is_same_file(&found, &self.found) {
            self.is_lost = false;
            return;
        }
        match open_pipe(&self.rt, self.path.as_str()) {
            Ok((end, found)) => {
                if output.count() > 0 {
                    let reader = output.remove(0);
                    drop(output.take_back(reader));
                }
                self.end = Some(end);
                self.found = found;
                self.is_lost = false;
                sender.send(Visit::NewPipe);
            }
            Err(_) if !self.is_lost => {
                self.is_lost = true;
                sender.send(Visit::NoPipe);
            }
            Err(_) => {}
        }
    }

    /// Removes from the pipe what a reader that has left did not read.
    fn drain(&self, end: &File) {
        let Ok(mut both) = open_again(&self.rt, self.alloc, end) else {
            return;
        };
        if set_nonblocking(&both).is_err() {
            return;
        }
        let mut bytes = [0u8; 4_096];
        for _ in 0..MOST_READS {
            match both.read(&mut bytes) {
                Ok(0) => return,
                Ok(_) => {}
                Err(_) => return,
            }
        }
    }
}

impl<T: Files<File = File> + Clock + Drop> ReaderDoor<File> for PipeDoor<T> {
    /// Opens the pipe once more, which waits until somebody reads it.
    fn wait_for_first(&mut self) {
        let Some(end) = &self.end else {
            return;
        };
        if let Ok(path) = path_of(self.alloc, end) {
            let _ = OpenOptions::new().write(true).open(&self.rt, path.as_str());
        }
    }

    /// Looks at the path now and then while nobody reads the pipe. The pipe itself is always a reader of the output;
    /// the next frame shows whether anybody reads it.
    fn look(&mut self, output: &mut LiveOutput<File>, sender: &mut VisitSender) {
        if !self.is_read {
            let now = millis(&self.rt);
            if now >= self.due {
                self.due = now.saturating_add(LOOK_MILLIS);
                self.look_at_path(output, sender);
            }
        }
        if let Some(end) = self.end.take() {
            self.end = output.add(end).err();
        }
    }

    fn note_there(&mut self, sender: &mut VisitSender) {
        if !self.is_read {
            self.is_read = true;
            sender.send(Visit::Came(None));
        }
    }

    /// Empties the pipe if somebody has read it, so that the next reader gets no rest of an old frame. Otherwise counts
    /// a frame that nobody read.
    fn leave(&mut self, _at: usize, stream: File, sender: &mut VisitSender) {
        if self.is_read {
            self.is_read = false;
            self.drain(&stream);
            sender.send(Visit::Left(None));
        } else {
            sender.shared().add_unread();
        }
        self.end = Some(stream);
    }
}

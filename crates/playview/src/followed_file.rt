//! A log in a file that grows.
ghost use Rattle.std.specs.Prelude.{◌≤◌, length, IfOk};
ghost use Rattle.playview.specs.Pieces.{IsWithin};

use crate::input::Piece;
use crate::said::{not_opened, say_history, say_log};
use play_outside::FileFault;
use std::alloc::Global;
use std::fs::{self, File, Metadata};
use std::io::{self, Eprint, Error, ErrorKind, Read};
use std::os::unix::fs::MetadataExt;
use std::rt::Files;

/// The ending of the path of a log, after the path of its history.
const LOG_ENDING: &str = ".log";

/// After how many looks without a byte it is looked whether the file is still at its path.
const LOOKS: u32 = 10;

const WAITED_FOR: &str = "it is not there yet, and waited for";

const OPENED: &str = "opened";

const NOT_REGULAR: &str = "not a regular file";

const GONE: &str = "it was moved or removed; its last state stays";

const OTHER: &str = "another file is there now; this one's last state stays";

/// A file that is read from its beginning while it grows, also after it was moved or removed.
#[derive(Drop)]
pub struct FollowedFile {
    path: String,
    /// The file, once it was there.
    file: Option<File>,
    /// How many looks found nothing since the path was looked at.
    idle: u32,
    /// Whether the file is no longer at its path, which was reported.
    is_away: bool,
}

impl FollowedFile {
    /// Opens the file at `path`, or reports that it is waited for. `Failed` comes if something else than a regular file is
    /// there, or if it cannot be opened; standard error says why.
    pub fn open<R: Files<File = File> + Eprint>(
        rt: &R,
        alloc: Global,
        path: &str,
    ) -> Result<FollowedFile, FileFault> {
        let mut log = FollowedFile {
            path: String::from_str(alloc, path)?,
            file: None,
            idle: 0,
            is_away: false,
        };
        match log.find(rt) {
            Ok(()) => {
                if log.file.is_none() {
                    say_log(rt, path, &WAITED_FOR);
                }
                Ok(log)
            }
            Err(error) => Err(not_opened(rt, path, &error)),
        }
    }

    /// Opens the file, if it is there.
    fn find<R: Files<File = File> + Eprint>(&mut self, rt: &R) -> io::Result<()> {
        let path = self.path.as_str();
        match fs::metadata(rt, path) {
            Ok(found) if !found.is_file() => Err(Error::new(ErrorKind::InvalidInput, NOT_REGULAR)),
            Ok(_) => {
                self.file = Some(fs::open(rt, path)?);
                say_log(rt, path, &OPENED);
                Ok(())
            }
            Err(error) if error.kind() == ErrorKind::NotFound => Ok(()),
            Err(error) => Err(error),
        }
    }

    /// Reads the next bytes, if there are some. If there are none, it looks from time to time whether the file is there, or
    /// still there, and reports a change. A failed read is reported.
    pub fn read<R: Files<File = File> + Eprint>(&mut self, rt: &R, room: &mut [u8]) -> Piece
        ensures { IsWithin (length room.new) result }
    {
        match self.read_some(rt, room) {
            Ok(0) => Piece::Nothing,
            Ok(count) => Piece::Bytes(count),
            Err(error) if error.kind() == ErrorKind::Interrupted => Piece::Nothing,
            Err(error) => {
                say_log(rt, self.path.as_str(), &error);
                Piece::Failed
            }
        }
    }

    /// Reads bytes of the file, if it is there and has more.
    fn read_some<R: Files<File = File> + Eprint>(
        &mut self,
        rt: &R,
        room: &mut [u8],
    ) -> io::Result<usize>
        ensures { IfOk result (λ count. count ≤ length room.new) }
    {
        let count = match &mut self.file {
            Some(file) => file.read(room)?,
            None => 0,
        };
        if count == 0 {
            self.look_at_path(rt)?;
        }
        Ok(count)
    }

    /// Looks from time to time whether the file is there, or still there.
    fn look_at_path<R: Files<File = File> + Eprint>(&mut self, rt: &R) -> io::Result<()> {
        self.idle = self.idle.saturating_add(1);
        if self.is_away || self.idle < LOOKS {
            return Ok(());
        }
        self.idle = 0;
        match &self.file {
            Some(file) => {
                let file = file.metadata()?;
                self.say_if_away(rt, &file)
            }
            None => self.find(rt),
        }
    }

    /// Reports if the file with this metadata is no longer at its path.
    fn say_if_away<R: Files + Eprint>(&mut self, rt: &R, file: &Metadata) -> io::Result<()> {
        let path = self.path.as_str();
        match fs::metadata(rt, path) {
            Ok(found) if is_same_file(&found, file) => return Ok(()),
            Ok(_) => say_log(rt, path, &OTHER),
            Err(error) if error.kind() == ErrorKind::NotFound => say_end(rt, path),
            Err(error) => return Err(error),
        }
        self.is_away = true;
        Ok(())
    }
}

/// Reports that there is no file at the path of a log any more, and which file is its history, if there is one.
fn say_end<R: Files + Eprint>(rt: &R, path: &str) {
    match path.strip_suffix(LOG_ENDING) {
        Some(history) if is_regular(rt, history) => say_history(rt, path, history),
        Some(_) | None => say_log(rt, path, &GONE),
    }
}

/// Returns whether a regular file is at a path.
fn is_regular<R: Files>(rt: &R, path: &str) -> bool {
    match fs::metadata(rt, path) {
        Ok(found) => found.is_file(),
        Err(_) => false,
    }
}

/// Returns whether two metadata are of one file.
fn is_same_file(one: &Metadata, other: &Metadata) -> bool {
    one.dev() == other.dev() && one.ino() == other.ino()
}

//! Where the log comes from.
ghost use Rattle.std.specs.Prelude.{length};
ghost use Rattle.playview.specs.Pieces.{IsWithin};

use crate::followed_file::FollowedFile;
use crate::stream_input::StreamInput;
use play_outside::FileFault;
use std::alloc::Global;
use std::fs::File;
use std::io::Eprint;
use std::rt::Files;
use std::sync::Wait;

/// The name of standard input.
const STANDARD_INPUT: &str = "-";

/// What a look for more bytes found.
#[derive(Clone, Copy, Debug, PartialEq, Eq)]
pub enum Piece {
    /// This many bytes, at least one.
    Bytes(usize),
    /// No bytes for now.
    Nothing,
    /// The log cannot be read, which was reported.
    Failed,
}

/// A file that grows, or standard input.
#[derive(Drop)]
pub enum LogInput {
    File(FollowedFile),
    Stream(StreamInput),
}

impl LogInput {
    /// Opens the log of this name, or begins to wait for it.
    pub fn open<R: Files<File = File> + Wait + Eprint>(
        rt: &R,
        alloc: Global,
        name: &str,
        input: StreamInput,
    ) -> Result<LogInput, FileFault> {
        if name == STANDARD_INPUT {
            input.begin(rt);
            Ok(LogInput::Stream(input))
        } else {
            Ok(LogInput::File(FollowedFile::open(rt, alloc, name)?))
        }
    }

    /// Reads the next bytes, as many as are there, up to the length of `room`. It does not wait.
    pub fn read<R: Files<File = File> + Wait + Eprint>(&mut self, rt: &R, room: &mut [u8]) -> Piece
        ensures { IsWithin (length room.new) result }
    {
        match self {
            LogInput::File(file) => file.read(rt, room),
            LogInput::Stream(stream) => stream.read(rt, room),
        }
    }
}

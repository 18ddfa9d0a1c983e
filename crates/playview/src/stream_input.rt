//! A log from standard input.
ghost use Rattle.std.specs.Prelude.{◌≤◌, length};
ghost use Rattle.playview.specs.Pieces.{IsWithin};

use crate::input::Piece;
use crate::said::say_log;
use std::alloc::{AllocError, AllocGlobal, Global};
use std::collections::VecDeque;
use std::io::{self, Eprint, ErrorKind, Read, Stdin, Write};
use std::sync::{Arc, Condvar, Mutex, Wait};
use std::thread::{self, Threads};

/// If this many bytes or more wait for the viewer, no more are read.
const MOST_WAITING: usize = 1_048_576;

/// The most bytes of one read.
const PIECE_BYTES: usize = 65_536;

const NAME: &str = "standard input";

const ENDED: &str = "it has ended; its last state stays";

/// The bytes that a thread of its own reads from standard input.
#[derive(Drop)]
pub struct StreamInput {
    shared: Arc<Shared, Global>,
    /// Whether the end was reported.
    has_ended: bool,
}

/// What the viewer shares with the thread that reads.
#[derive(Drop)]
struct Shared {
    waiting: Mutex<Waiting>,
    /// Notified when the input is wanted, and when bytes were taken.
    changed: Condvar,
}

/// The bytes that wait for the viewer.
#[derive(Drop)]
struct Waiting {
    /// Whether the input is to be read.
    is_wanted: bool,
    bytes: VecDeque<u8>,
    /// How the input has ended, once it has.
    end: Option<End>,
}

/// How an input ends.
#[derive(Clone, Copy, Debug, PartialEq, Eq)]
enum End {
    /// All of it was read.
    Whole,
    /// A read failed, which was reported.
    Failed,
}

impl StreamInput {
    /// Starts the thread that reads standard input, once that is wanted. It ends with the process.
    pub fn start<R: Threads + Wait + Eprint + AllocGlobal + Copy + Send + Drop + 'static>(
        rt: &R,
        alloc: Global,
        input: Stdin,
    ) -> Result<StreamInput, AllocError> {
        let shared = Shared::new(alloc)?;
        let theirs = Arc::try_clone(&shared)?;
        let piece = vec![in alloc; 0; PIECE_BYTES]?;
        let rt = *rt;
        thread::spawn(&rt, move || { read_all(&rt, &theirs, input, piece) })?;
        Ok(StreamInput {
            shared,
            has_ended: false,
        })
    }

    /// Lets the thread begin to read.
    pub fn begin<R: Wait>(&self, rt: &R) {
        self.shared.want(rt);
    }

    /// Takes the next bytes that were read. The end of the input is reported, and is no failure.
    pub fn read<R: Wait + Eprint>(&mut self, rt: &R, room: &mut [u8]) -> Piece
        ensures { IsWithin (length room.new) result }
    {
        let (count, end) = self.shared.take(rt, room);
        if count > 0 {
            return Piece::Bytes(count);
        }
        match end {
            Some(End::Failed) => Piece::Failed,
            Some(End::Whole) => {
                self.say_end(rt);
                Piece::Nothing
            }
            None => Piece::Nothing,
        }
    }

    /// Reports that the input has ended, once.
    fn say_end<E: Eprint>(&mut self, errors: &E) {
        if !self.has_ended {
            self.has_ended = true;
            say_log(errors, NAME, &ENDED);
        }
    }
}

impl Shared {
    /// Returns what is shared before anything is read.
    fn new(alloc: Global) -> Result<Arc<Shared, Global>, AllocError> {
        let waiting = Waiting {
            is_wanted: false,
            bytes: VecDeque::with_capacity(alloc, MOST_WAITING + PIECE_BYTES)?,
            end: None,
        };
        let shared = Shared {
            waiting: Mutex::new(waiting),
            changed: Condvar::new(),
        };
        Ok(Arc::new(alloc, shared)?)
    }

    /// Lets the thread begin to read.
    fn want<R: Wait>(&self, rt: &R) {
        self.waiting.lock(rt).is_wanted = true;
        self.changed.notify_one();
    }

    /// Waits until the input is wanted.
    fn wait<R: Wait>(&self, rt: &R) {
        let waiting = self.waiting.lock(rt);
        let _waiting = self
            .changed
            .wait_while(rt, waiting, |waiting| !waiting.is_wanted);
    }

    /// Adds bytes at the end, after it has waited until there is room.
    fn put<R: Wait>(&self, rt: &R, piece: &[u8]) -> io::Result<()> {
        let waiting = self.waiting.lock(rt);
        let mut waiting = self
            .changed
            .wait_while(rt, waiting, |waiting| waiting.bytes.len() >= MOST_WAITING);
        waiting.bytes.write_all(piece)
    }

    /// Notes how the input has ended.
    fn end<R: Wait>(&self, rt: &R, end: End) {
        self.waiting.lock(rt).end = Some(end);
    }

    /// Moves the first bytes into `room`. Returns how many they are, and how the input has ended, if it has.
    fn take<R: Wait>(&self, rt: &R, room: &mut [u8]) -> (usize, Option<End>)
        ensures { result.0 ≤ length room.new }
    {
        let mut waiting = self.waiting.lock(rt);
        let end = waiting.end;
        let count = waiting.bytes.read(room).unwrap_or(0);
        self.changed.notify_one();
        (count, end)
    }
}

/// Waits until standard input is wanted, reads it to its end, piece by piece, and hands the bytes out.
fn read_all<R: Wait + Eprint>(rt: &R, shared: &Shared, mut input: Stdin, mut piece: Vec<u8>) {
    shared.wait(rt);
    let end = match read_pieces(rt, shared, &mut input, piece.as_mut_slice()) {
        Ok(()) => End::Whole,
        Err(error) => {
            say_log(rt, NAME, &error);
            End::Failed
        }
    };
    shared.end(rt, end);
}

/// Reads standard input to its end, into the room for a piece, and hands out each piece.
fn read_pieces<R: Wait>(
    rt: &R,
    shared: &Shared,
    input: &mut Stdin,
    room: &mut [u8],
) -> io::Result<()> {
    for _ in rt.forever() {
        match input.read(room) {
            Ok(0) => return Ok(()),
            Ok(count) => shared.put(rt, &room[..count])?,
            Err(error) if error.kind() == ErrorKind::Interrupted => {}
            Err(error) => return Err(error),
        }
    }
    unreachable!()
}

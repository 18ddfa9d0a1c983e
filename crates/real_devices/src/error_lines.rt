//! Standard error, whose reader nobody waits for.
use crate::file_limit::largest_file;
use std::alloc::Global;
use std::fmt::{Display, Write};
use std::io::{self, Eprint, Error, ErrorKind};
use std::rt::Files;
use std::sync::{Arc, Condvar, Mutex, Wait};
use std::thread::{self, Threads};
use std::time::{Clock, Duration};
use std::{fs, mem};

/// If this many bytes or more wait to be written, a further line is left out.
const ROOM: usize = 65_536;

/// How many bytes of a line have memory from the start.
const LINE: usize = 16_384;

/// The most bytes of the line that reports how many lines were left out.
const NOTICE: usize = 64;

/// For how many milliseconds the end of a program waits for its last lines to be written.
const END_MILLIS: u64 = 1_000;

/// The file that standard error goes to, as Linux names it.
const FILE: &str = "/proc/self/fd/2";

/// Standard error, written by a thread of its own, so that no caller waits for its reader: while the reader takes
/// nothing, further lines are left out and counted.
#[derive(Drop)]
pub struct ErrorLines {
    /// `None` if no thread could be started: then each line is written at once.
    shared: Option<Arc<Shared, Global>>,
}

/// What callers share with the thread that writes their lines.
#[derive(Drop)]
struct Shared {
    waiting: Mutex<Waiting>,
    /// Notified when lines come, and when the thread has written those that it took.
    changed: Condvar,
}

/// The lines that wait to be written.
#[derive(Drop)]
struct Waiting {
    text: String,
    /// How many lines were left out since some were written.
    left_out: u64,
    /// Whether the thread is writing lines that it took.
    is_writing: bool,
}

impl ErrorLines {
    /// Starts the thread that writes lines. If no thread can be started, or memory runs out, each line is written at
    /// once.
    pub fn start<R: Threads + Wait + Eprint + Files + AllocGlobal + Copy + Send + 'static>(
        rt: R,
        alloc: Global,
    ) -> ErrorLines {
        let room = room_left(&rt);
        ErrorLines {
            shared: begin(rt, alloc, room).ok(),
        }
    }

    /// Adds a value to the text that waits to be written, or writes it at once if there is no thread. If there is no
    /// room for it, it is left out, which is an error.
    pub(crate) fn say<R: Wait + Eprint, D: Display + Drop>(
        &self,
        rt: &R,
        value: D,
    ) -> io::Result<()> {
        match &self.shared {
            Some(shared) => shared.say(rt, value),
            None => rt.eprint(value),
        }
    }

    /// Waits until all lines are written, for a second at most.
    pub fn finish<R: Wait + Clock>(&self, rt: &R) {
        if let Some(shared) = &self.shared {
            shared.finish(rt);
        }
    }
}

/// Starts the thread that writes lines, and returns what it shares with the callers.
fn begin<R: Threads + Wait + Eprint + Copy + Send + 'static>(
    rt: R,
    alloc: Global,
    room: Option<u64>,
) -> io::Result<Arc<Shared, Global>> {
    let text = String::with_capacity(alloc, ROOM + LINE)?;
    let taken = String::with_capacity(alloc, ROOM + LINE)?;
    let waiting = Waiting {
        text,
        left_out: 0,
        is_writing: false,
    };
    let shared = Arc::new(
        alloc,
        Shared {
            waiting: Mutex::new(waiting),
            changed: Condvar::new(),
        },
    )?;
    let theirs = Arc::try_clone(&shared)?;
    thread::spawn(&rt, move || { write_lines(&rt, &theirs, taken, room) })?;
    Ok(shared)
}

/// Writes lines as they come, for as long as the program runs. If `room` limits how many bytes may be written, lines
/// beyond that are dropped.
fn write_lines<R: Wait + Eprint>(rt: &R, shared: &Shared, mut text: String, mut room: Option<u64>) {
    for _ in rt.forever() {
        let left_out = shared.take(rt, &mut text);
        if takes(&mut room, text.len()) {
            let _ = rt.eprint(text.as_str());
        }
        if left_out > 0 && takes(&mut room, NOTICE) {
            let _ = rt.eprintln(format_args!("playd: {left_out} lines were left out here"));
        }
        text.clear();
    }
}

/// Returns whether there is room for `bytes` bytes, and if so, uses it.
fn takes(room: &mut Option<u64>, bytes: usize) -> bool {
    let Some(left) = *room else {
        return true;
    };
    match left.checked_sub(bytes as u64) {
        Some(less) => {
            *room = Some(less);
            true
        }
        None => false,
    }
}

/// Returns how many bytes the file of standard error may still take, if it is a file whose size is limited.
fn room_left<R: Files + AllocGlobal>(rt: &R) -> Option<u64> {
    let largest = largest_file(rt)?;
    match fs::metadata(rt, FILE) {
        Ok(found) if found.is_file() => Some(largest.saturating_sub(found.len())),
        _ => None,
    }
}

impl Shared {
    /// Adds a value to the text that waits to be written.
    fn say<R: Wait, D: Display + Drop>(&self, rt: &R, value: D) -> io::Result<()> {
        let mut waiting = self.waiting.lock(rt);
        let added = waiting.add(value);
        drop(waiting);
        self.changed.notify_all();
        added
    }

    /// Waits until lines are to be written, moves them into `text`, and returns how many were left out after them. What
    /// was taken before is written by then.
    fn take<R: Wait>(&self, rt: &R, text: &mut String) -> u64 {
        let mut waiting = self.waiting.lock(rt);
        waiting.is_writing = false;
        self.changed.notify_all();
        let mut waiting = self
            .changed
            .wait_while(rt, waiting, |waiting| waiting.is_empty());
        waiting.take(text)
    }

    /// Waits until all lines are written, for a second at most.
    fn finish<R: Wait + Clock>(&self, rt: &R) {
        let waiting = self.waiting.lock(rt);
        let most = Duration::from_millis(END_MILLIS);
        let _ = self
            .changed
            .wait_timeout_while(rt, waiting, most, |waiting| !waiting.is_written());
    }
}

impl Waiting {
    /// Adds a value, or leaves it out if there is no room.
    fn add<D: Display + Drop>(&mut self, value: D) -> io::Result<()> {
        if self.text.len() >= ROOM {
            self.left_out = self.left_out.saturating_add(1);
            return Err(Error::from(ErrorKind::WouldBlock));
        }
        match write!(self.text, "{value}") {
            Ok(()) => Ok(()),
            Err(_) => Err(Error::from(ErrorKind::OutOfMemory)),
        }
    }

    /// Moves the lines into an empty text, and returns how many were left out after them.
    fn take(&mut self, text: &mut String) -> u64 {
        self.is_writing = true;
        mem::swap(&mut self.text, text);
        mem::take(&mut self.left_out)
    }

    /// Returns whether there is nothing to write.
    fn is_empty(&self) -> bool {
        self.text.is_empty() && self.left_out == 0
    }

    /// Returns whether all lines are written.
    fn is_written(&self) -> bool {
        self.is_empty() && !self.is_writing
    }
}

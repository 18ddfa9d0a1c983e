//! The thread of a live output.
use crate::live::door::{ReaderDoor, VisitSender};
use crate::live::rhythm::Rhythm;
use crate::pace::millis;
use live_output::{FrameWindow, LiveOutput, MAX_READERS, Progress};
use std::alloc::{AllocError, Global};
use std::io::Write;
use std::thread;
use std::time::{Clock, Duration};

/// For how many milliseconds after the end of a run an output may hand out what waits.
const END_MILLIS: u64 = 2_000;

/// While readers take nothing, each pause is longer by `FULL_MICROS` microseconds than the one before, up to
/// `MOST_FULL_MICROS`. The first is short, since a pipe holds a small part of a frame and its reader empties it at
/// once.
const FULL_MICROS: u64 = 10;

const MOST_FULL_MICROS: u64 = 5_000;

/// The most pieces that are written to one reader before the next one gets some.
const MOST_WRITES: u32 = 64;

/// What a turn of the thread found.
#[derive(Clone, Copy, Debug, PartialEq, Eq)]
enum Turn {
    /// A frame came, or a reader took something.
    Moved,
    /// Readers have to take something first.
    Full,
    /// Readers have all frames that came.
    Idle,
}

impl Turn {
    /// Returns what two turns found together.
    fn and(self, other: Turn) -> Turn {
        match (self, other) {
            (Turn::Moved, _) | (_, Turn::Moved) => Turn::Moved,
            (Turn::Full, _) | (_, Turn::Full) => Turn::Full,
            (Turn::Idle, Turn::Idle) => Turn::Idle,
        }
    }
}

/// Hands frames to at most `places` readers until the run has ended, and then what waits, for two seconds at most. If
/// memory runs out at the start, no frame is handed on.
pub(crate) fn serve<T: Clock + Drop, W: Write + Drop, D: ReaderDoor<W>>(
    rt: T,
    alloc: Global,
    window: FrameWindow,
    places: usize,
    door: D,
    sender: VisitSender,
) {
    match LiveOutput::new(alloc, window, places) {
        Ok(output) => LiveThread::new(rt, output, door, sender).run(),
        Err(AllocError) => {
            let shared = sender.shared();
            shared.want(false);
            shared.note_waited();
            shared.note_ended();
        }
    }
}

/// A live output with its readers.
#[derive(Drop)]
struct LiveThread<T, W, D> {
    rt: T,
    output: LiveOutput<W>,
    door: D,
    sender: VisitSender,
    rhythm: Rhythm,
    /// How many turns since the last one in which a frame came or a reader took something.
    tries: u64,
}

impl<T: Clock + Drop, W: Write + Drop, D: ReaderDoor<W>> LiveThread<T, W, D> {
    /// Returns the thread of an output.
    fn new(rt: T, output: LiveOutput<W>, door: D, sender: VisitSender) -> LiveThread<T, W, D> {
        LiveThread {
            rt,
            output,
            door,
            sender,
            rhythm: Rhythm::new(),
            tries: 0,
        }
    }

    /// Waits for the first reader, and then serves all readers.
    fn run(self) {
        let mut thread = self;
        thread.door.wait_for_first();
        thread.sender.shared().note_waited();
        thread.serve();
        thread.sender.shared().note_ended();
    }

    fn serve(&mut self) {
        let mut end = None;
        for _ in 0..u64::MAX {
            let is_ending = self.sender.shared().is_ending();
            let turn = self.turn();
            if is_ending && self.is_over(turn, &mut end) {
                return;
            }
            self.tries = match turn {
                Turn::Moved => 0,
                Turn::Full | Turn::Idle => self.tries.saturating_add(1),
            };
            self.rest(turn);
        }
    }

    /// Returns whether nothing waits, or `END_MILLIS` have passed since the first call.
    fn is_over(&self, turn: Turn, end: &mut Option<u64>) -> bool {
        let now = millis(&self.rt);
        match *end {
            Some(end) => turn == Turn::Idle || now >= end,
            None => {
                *end = Some(now.saturating_add(END_MILLIS));
                turn == Turn::Idle
            }
        }
    }

    /// Sleeps after a turn in which nothing moved.
    fn rest(&self, turn: Turn) {
        match turn {
            Turn::Moved => {}
            Turn::Idle => {
                let pause = self.rhythm.pause(millis(&self.rt));
                thread::sleep(&self.rt, Duration::from_millis(pause));
            }
            Turn::Full => {
                let pause = self.tries.saturating_mul(FULL_MICROS).min(MOST_FULL_MICROS);
                thread::sleep(&self.rt, Duration::from_micros(pause));
            }
        }
    }

    /// Looks for readers, takes a frame that came, and writes to each reader.
    fn turn(&mut self) -> Turn {
        self.door.look(&mut self.output, &mut self.sender);
        let mut turn = if self.output.take() {
            self.rhythm.note(millis(&self.rt));
            Turn::Moved
        } else {
            Turn::Idle
        };
        for at in 0..MAX_READERS {
            turn = turn.and(self.write_to(at));
        }
        turn
    }

    /// Writes to the reader at place `at`, if there is one, until it takes nothing or has all.
    fn write_to(&mut self, at: usize) -> Turn {
        for _ in 0..MOST_WRITES {
            if at >= self.output.count() {
                return Turn::Idle;
            }
            let skipped = self.output.reader(at).skipped();
            let progress = self.output.write_to(at);
            let now = self.output.reader(at).skipped();
            self.sender.shared().add_slow(now.saturating_sub(skipped));
            match progress {
                Progress::Took => {
                    self.tries = 0;
                    self.door.note_there(&mut self.sender);
                }
                Progress::Full => {
                    self.door.note_there(&mut self.sender);
                    return Turn::Full;
                }
                Progress::Idle => return Turn::Idle,
                Progress::Left => {
                    let reader = self.output.remove(at);
                    let stream = self.output.take_back(reader);
                    self.door.leave(at, stream, &mut self.sender);
                    return Turn::Moved;
                }
            }
        }
        Turn::Moved
    }
}

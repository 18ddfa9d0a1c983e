//! The side of a live output that is written to.
use crate::complaint::complain;
use crate::live::door::Visit;
use crate::live::shared::Shared;
use crate::live::tally::Tally;
use crate::pace::millis;
use live_output::FrameCutter;
use rtrb::Consumer;
use std::alloc::{AllocError, Global};
use std::io::Eprint;
use std::sync::Arc;
use std::time::{Clock, Duration};
use std::{mem, thread};

/// For how many milliseconds after a line an output writes no other line.
const PAUSE_MILLIS: u64 = 1_000;

/// How many times the end of a run looks whether the thread of an output has ended. With `END_LOOK_MILLIS` milliseconds
/// between two looks that is three seconds.
const END_LOOKS: u32 = 300;

const END_LOOK_MILLIS: u64 = 10;

/// How many visits may wait to be counted, and how many are counted at a time.
pub(crate) const VISITS: usize = 64;

/// Takes every byte of an output, and waits for nobody. A thread of the output's own hands the frames to readers. The
/// sink reports on standard error, once a second at most, who came and left, and how many frames were dropped.
#[derive(Drop)]
pub(crate) struct LiveSink {
    cutter: FrameCutter,
    visits: Consumer<Visit>,
    end: RunEnd,
    tally: Tally,
    /// How many frames the cutter had dropped at the last count.
    counted: u64,
    /// The millisecond of the clock from which on a line may be written.
    due: u64,
}

/// Asks the thread of an output to end when it is dropped.
struct RunEnd {
    shared: Arc<Shared, Global>,
}

impl Drop for RunEnd {
    fn drop(self) {
        let RunEnd { shared } = self;
        shared.note_ending();
    }
}

impl LiveSink {
    /// Returns the sink of an output whose thread shares `shared` and sends `visits`.
    pub(crate) fn new(
        cutter: FrameCutter,
        visits: Consumer<Visit>,
        shared: Arc<Shared, Global>,
    ) -> LiveSink {
        LiveSink {
            cutter,
            visits,
            end: RunEnd { shared },
            tally: Tally::new(),
            counted: 0,
            due: 0,
        }
    }

    /// Returns a handle of what it shares with its thread.
    pub(crate) fn share(&self) -> Result<Arc<Shared, Global>, AllocError> {
        Arc::try_clone(&self.end.shared)
    }

    /// Takes the piece, and reports what happened.
    pub(crate) fn write<E: Clock + Eprint>(&mut self, errors: &E, name: &str, piece: &[u8]) {
        let is_wanted = self.end.shared.is_wanted();
        self.cutter.write(piece, is_wanted);
        self.count(is_wanted);
        if self.tally.is_news() {
            self.say_in_time(errors, name);
        }
    }

    /// Asks the thread to end once it has handed out what waits, or its time is up.
    pub(crate) fn note_ending(&self) {
        self.end.shared.note_ending();
    }

    /// Waits until the thread has ended, for three seconds at most, and reports what was not reported yet.
    pub(crate) fn finish<E: Clock + Eprint>(self, errors: &E, name: &str) {
        let mut sink = self;
        sink.note_ending();
        for _ in 0..END_LOOKS {
            if sink.end.shared.has_ended() {
                break;
            }
            thread::sleep(errors, Duration::from_millis(END_LOOK_MILLIS));
        }
        sink.count(false);
        if sink.tally.is_any() {
            complain(errors, name, &sink.tally);
        }
    }

    /// Counts what happened since the last call.
    fn count(&mut self, is_wanted: bool) {
        for _ in 0..VISITS {
            match self.visits.pop() {
                Ok(visit) => self.tally.add(visit),
                Err(_) => break,
            }
        }
        let dropped = self.cutter.dropped();
        let more = dropped.saturating_sub(self.counted);
        self.counted = dropped;
        let (unread, slow) = if is_wanted { (0, more) } else { (more, 0) };
        let shared = &self.end.shared;
        let unread = unread.saturating_add(shared.take_unread());
        let slow = slow.saturating_add(shared.take_slow());
        self.tally.unread = self.tally.unread.saturating_add(unread);
        self.tally.slow = self.tally.slow.saturating_add(slow);
    }

    /// Reports what happened, unless a line was written in the last second.
    fn say_in_time<E: Clock + Eprint>(&mut self, errors: &E, name: &str) {
        let now = millis(errors);
        if now < self.due {
            return;
        }
        self.due = now.saturating_add(PAUSE_MILLIS);
        let tally = mem::replace(&mut self.tally, Tally::new());
        complain(errors, name, &tally);
    }
}

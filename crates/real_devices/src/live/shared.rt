//! What the thread of a live output shares with the run.
use std::sync::atomic::{AtomicBool, AtomicU64, Ordering};

/// Counts of frames that were dropped, and the progress of a live output.
#[derive(Drop)]
pub struct Shared {
    /// How many frames that came to the thread nobody read, since this was last taken.
    unread: AtomicU64,
    /// For how many frames a reader was too slow, since this was last taken.
    slow: AtomicU64,
    /// Whether frames are handed on to the thread.
    is_wanted: AtomicBool,
    /// Whether the thread no longer waits for its first reader.
    has_waited: AtomicBool,
    /// Whether the run has ended.
    is_ending: AtomicBool,
    /// Whether the thread has ended.
    has_ended: AtomicBool,
}

impl Shared {
    /// Returns the state of an output whose thread has not begun.
    pub(crate) const fn new(is_wanted: bool) -> Shared {
        Shared {
            unread: AtomicU64::new(0),
            slow: AtomicU64::new(0),
            is_wanted: AtomicBool::new(is_wanted),
            has_waited: AtomicBool::new(false),
            is_ending: AtomicBool::new(false),
            has_ended: AtomicBool::new(false),
        }
    }

    /// Counts a frame that nobody read.
    pub(crate) fn add_unread(&self) {
        self.unread.fetch_add(1, Ordering::SeqCst);
    }

    /// Counts frames for which a reader was too slow.
    pub(crate) fn add_slow(&self, frames: u64) {
        if frames > 0 {
            self.slow.fetch_add(frames, Ordering::SeqCst);
        }
    }

    /// Returns how many frames nobody read, and resets the count.
    pub(crate) fn take_unread(&self) -> u64 {
        self.unread.swap(0, Ordering::SeqCst)
    }

    /// Returns for how many frames readers were too slow, and resets the count.
    pub(crate) fn take_slow(&self) -> u64 {
        self.slow.swap(0, Ordering::SeqCst)
    }

    /// Sets whether frames are handed on.
    pub(crate) fn want(&self, is_wanted: bool) {
        self.is_wanted.store(is_wanted, Ordering::SeqCst);
    }

    /// Returns whether frames are handed on.
    pub(crate) fn is_wanted(&self) -> bool {
        self.is_wanted.load(Ordering::SeqCst)
    }

    /// Notes that the thread no longer waits for its first reader.
    pub(crate) fn note_waited(&self) {
        self.has_waited.store(true, Ordering::SeqCst);
    }

    /// Returns whether the thread no longer waits for its first reader.
    pub(crate) fn has_waited(&self) -> bool {
        self.has_waited.load(Ordering::SeqCst)
    }

    /// Notes that the run has ended.
    pub(crate) fn note_ending(&self) {
        self.is_ending.store(true, Ordering::SeqCst);
    }

    /// Returns whether the run has ended.
    pub(crate) fn is_ending(&self) -> bool {
        self.is_ending.load(Ordering::SeqCst)
    }

    /// Notes that the thread has ended.
    pub(crate) fn note_ended(&self) {
        self.has_ended.store(true, Ordering::SeqCst);
    }

    /// Returns whether the thread has ended.
    pub(crate) fn has_ended(&self) -> bool {
        self.has_ended.load(Ordering::SeqCst)
    }
}

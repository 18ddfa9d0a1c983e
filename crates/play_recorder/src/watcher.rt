//! Reports on the progress of writing a film.

/// Receives the progress of writing a film. It changes nothing that is written.
pub trait Watcher {
    /// Reports that `ticks` ticks of the history were made again, of `all` up to the last recorded one, and that `frames` frames of the
    /// film were written.
    fn watch(&mut self, ticks: u64, all: u64, frames: u32);
}

/// A watcher that does nothing.
#[derive(Clone, Copy, Debug)]
pub struct Unwatched;

impl Watcher for Unwatched {
    fn watch(&mut self, _ticks: u64, _all: u64, _frames: u32) {}
}

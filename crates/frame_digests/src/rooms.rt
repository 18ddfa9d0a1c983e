//! The rooms for the frames of a channel.

/// Where the frames of a channel are kept: at the places from `first` on and before `end`, which are filled in turn. The last frame
/// that was kept is at `newest`.
#[derive(Clone, Copy)]
pub(crate) struct Rooms {
    pub first: usize,
    pub end: usize,
    pub newest: usize,
}

impl Rooms {
    /// Returns the place of the next frame that is kept.
    pub(crate) fn next(self) -> usize {
        let next = self.newest.saturating_add(1);
        if next < self.end { next } else { self.first }
    }
}

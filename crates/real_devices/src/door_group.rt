//! What the doors on one listening socket share.
use crate::pace::Pace;
use crate::place::{BUSY, FREE, Place};
use std::alloc::Global;
use std::io::{self, Error, ErrorKind};
use std::sync::Arc;
use std::sync::atomic::{AtomicU64, AtomicUsize, Ordering};

/// Why a door gets no place.
const FULL: &str = "each place of the group has a door";

/// The doors on one listening socket, and the links that came from them: which places are free and whose clients are
/// silent, how many calls are in progress, and when failures may be reported again.
#[derive(Drop)]
pub struct DoorGroup {
    shared: Arc<Shared, Global>,
}

#[derive(Drop)]
struct Shared {
    places: Vec<AtomicU64>,
    /// How many doors have asked for a place.
    given: AtomicUsize,
    calls: AtomicU64,
    clients: Pace,
    socket: Pace,
}

impl DoorGroup {
    /// Returns a group with room for `doors` doors, or an error if memory ran out.
    pub fn new(alloc: Global, doors: u32) -> io::Result<DoorGroup> {
        let mut places = Vec::with_capacity(alloc, doors as usize)?;
        for _ in 0..doors {
            places.push(AtomicU64::new(BUSY))?;
        }
        let shared = Arc::new(
            alloc,
            Shared {
                places,
                given: AtomicUsize::new(0),
                calls: AtomicU64::new(0),
                clients: Pace::new(),
                socket: Pace::new(),
            },
        )?;
        Ok(DoorGroup { shared })
    }

    /// Returns the next place, for one more door. It is not free before the door waits for a connection. It fails if
    /// each place has a door.
    pub fn place(&self) -> io::Result<Place> {
        let at = self.shared.given.fetch_add(1, Ordering::SeqCst);
        if at >= self.shared.places.len() {
            return Err(Error::new(ErrorKind::InvalidInput, FULL));
        }
        Ok(Place::new(self.try_clone()?, at))
    }

    /// Returns how many places are free.
    pub fn free(&self) -> usize {
        let places = self.shared.places.iter();
        places
            .filter(|place| place.load(Ordering::SeqCst) == FREE)
            .count()
    }

    /// Returns the states of the places.
    pub(crate) fn places(&self) -> &[AtomicU64] {
        self.shared.places.as_slice()
    }

    /// Returns another handle of this group, for one more door or link.
    pub fn try_clone(&self) -> io::Result<DoorGroup> {
        let shared = Arc::try_clone(&self.shared)?;
        Ok(DoorGroup { shared })
    }

    /// Returns when failures of connections may be reported.
    pub(crate) fn clients(&self) -> &Pace {
        &self.shared.clients
    }

    /// Returns when failures of the listening socket may be reported.
    pub(crate) fn socket(&self) -> &Pace {
        &self.shared.socket
    }

    /// Counts a call of a door or a link that begins.
    pub(crate) fn begin_call(&self) {
        self.shared.calls.fetch_add(1, Ordering::SeqCst);
    }

    /// Counts a call of a door or a link that has ended.
    pub(crate) fn end_call(&self) {
        self.shared.calls.fetch_sub(1, Ordering::SeqCst);
    }

    /// Returns whether no call of a door or a link is in progress. Each worker of a run is in one but for short
    /// moments, until the run ends.
    pub(crate) fn is_quiet(&self) -> bool {
        self.shared.calls.load(Ordering::SeqCst) == 0
    }
}

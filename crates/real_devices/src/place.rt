//! The places of the clients that are served at once.
ghost use Rattle.std.specs.Prelude.{◌↔◌, IsTrue};
ghost use Rattle.real_devices.specs.inner.Places.{StaysFor};

use crate::door_group::DoorGroup;
use std::io;
use std::sync::atomic::{AtomicU64, Ordering};

/// The state of a place whose door waits for a connection.
pub(crate) const FREE: u64 = u64::MAX;

/// The state of a place that is not free and has no silent client: its door was not asked for a connection yet, or a
/// command of its client is being answered. A smaller state is the moment since which its client has sent no command.
pub(crate) const BUSY: u64 = u64::MAX - 1;

/// One of the places of a group: that of a door, and of the client that came by it. Whether a place is free, busy or
/// has a silent client is one atomic number, so that no place can be counted twice.
#[derive(Drop)]
pub struct Place {
    group: DoorGroup,
    at: usize,
}

impl Place {
    /// Returns the place at index `at` of a group that has it.
    pub(crate) fn new(group: DoorGroup, at: usize) -> Place {
        Place { group, at }
    }

    /// Returns another handle of this place, for a link.
    pub fn try_clone(&self) -> io::Result<Place> {
        Ok(Place {
            group: self.group.try_clone()?,
            at: self.at,
        })
    }

    /// Returns the group of the place.
    pub(crate) fn group(&self) -> &DoorGroup {
        &self.group
    }

    /// Makes the place free: its door waits for a connection.
    pub fn be_free(&self) {
        self.set(FREE);
    }

    fn set(&self, state: u64) {
        if let Some(place) = self.group.places().get(self.at) {
            place.store(state, Ordering::SeqCst);
        }
    }

    /// Makes the place busy if it is not free.
    fn leave(&self) {
        let Some(place) = self.group.places().get(self.at) else {
            return;
        };
        if place.load(Ordering::SeqCst) != FREE {
            place.store(BUSY, Ordering::SeqCst);
        }
    }

    /// Makes the place free, unless another one is free or another client has sent no command for longer than the one
    /// here, which has sent none since `since`. Returns whether it did. Of clients that ask at the same time only one
    /// goes: each but the one of the longest silence stays.
    fn frees_first(&self, since: u64) -> bool {
        let silent = Silent { at: self.at, since };
        for (other, state) in self.group.places().iter().enumerate() {
            if silent.stays_for(other, state.load(Ordering::SeqCst)) {
                return false;
            }
        }
        match self.group.places().get(self.at) {
            Some(place) => place
                .compare_exchange(since, FREE, Ordering::SeqCst, Ordering::SeqCst)
                .is_ok(),
            None => false,
        }
    }
}

/// The client at place `at`, which has sent no command since the moment `since`.
#[derive(Clone, Copy)]
struct Silent {
    at: usize,
    since: u64,
}

impl Silent {
    /// Returns whether the client keeps its place because of the place `other` in this state: that is free, or its
    /// client has sent no command for longer, or for as long at a lower index.
    fn stays_for(self, other: usize, state: u64) -> bool
        ensures { IsTrue result ↔ StaysFor self other state }
    {
        state == FREE || state < self.since || (state == self.since && other < self.at)
    }
}

/// A client at a place. When it is dropped and has not freed the place, the place is busy.
pub(crate) struct Seat {
    place: Place,
}

impl Seat {
    /// Takes the place, for a client that has sent no command since `since`.
    pub(crate) fn take(place: Place, since: u64) -> Seat {
        let seat = Seat { place };
        seat.be_silent(since);
        seat
    }

    /// Returns the group of the place.
    pub(crate) fn group(&self) -> &DoorGroup {
        self.place.group()
    }

    /// Notes that a command of the client is being answered.
    pub(crate) fn be_busy(&self) {
        self.place.set(BUSY);
    }

    /// Notes that the client has sent no command since `since`.
    pub(crate) fn be_silent(&self, since: u64) {
        self.place.set(since.min(BUSY - 1));
    }

    /// Frees the place for another client if this is the client that goes, which has sent no command since `since`.
    /// Returns whether it is.
    pub(crate) fn gives_way(&self, since: u64) -> bool {
        self.place.frees_first(since.min(BUSY - 1))
    }
}

impl Drop for Seat {
    fn drop(self) {
        let Seat { place } = self;
        place.leave();
    }
}

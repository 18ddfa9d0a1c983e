//! How many connections there are at once.
use std::alloc::{AllocError, Global};
use std::io;
use std::sync::Arc;
use std::sync::atomic::{AtomicUsize, Ordering};

/// The most connections at once.
pub const MAX_CLIENTS: usize = 64;

/// Counts the connections of one listening socket.
#[derive(Drop)]
pub(crate) struct Seats {
    taken: Arc<AtomicUsize, Global>,
}

impl Seats {
    /// Returns seats of which none is taken.
    pub(crate) fn new(alloc: Global) -> Result<Seats, AllocError> {
        let taken = Arc::new(alloc, AtomicUsize::new(0))?;
        Ok(Seats { taken })
    }

    /// Takes a seat, unless all are taken. The caller is the only one that takes any.
    pub(crate) fn take(&self) -> io::Result<Option<Seat>> {
        if self.taken.load(Ordering::SeqCst) >= MAX_CLIENTS {
            return Ok(None);
        }
        let taken = Arc::try_clone(&self.taken)?;
        taken.fetch_add(1, Ordering::SeqCst);
        Ok(Some(Seat { taken }))
    }
}

/// The seat of a connection, which is free again when it is dropped.
pub(crate) struct Seat {
    taken: Arc<AtomicUsize, Global>,
}

impl Drop for Seat {
    fn drop(self) {
        let Seat { taken } = self;
        taken.fetch_sub(1, Ordering::SeqCst);
    }
}

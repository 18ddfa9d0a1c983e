//! The sleep of one side until the other wakes it.

use std::alloc::{AllocError, Global};
use std::sync::{Arc, Wait};
use std::thread::Parker;

/// The parker on which one side sleeps, and that of the other side, which it wakes.
#[derive(Drop)]
pub(crate) struct Sleep {
    own: Arc<Parker, Global>,
    other: Arc<Parker, Global>,
}

impl Sleep {
    /// Creates the sleeps of both sides.
    pub(crate) fn pair(alloc: Global) -> Result<(Sleep, Sleep), AllocError> {
        let first = Arc::new(alloc, Parker::new())?;
        let second = Arc::new(alloc, Parker::new())?;
        let other = Sleep {
            own: Arc::try_clone(&second)?,
            other: Arc::try_clone(&first)?,
        };
        let one = Sleep {
            own: first,
            other: second,
        };
        Ok((one, other))
    }

    /// Sleeps until the other side calls [`Sleep::wake_other`]. Returns at once if it was called since this side last slept.
    pub(crate) fn sleep<R: Wait>(&self, rt: &R) {
        self.own.park(rt);
    }

    /// Ends the sleep of the other side, or its next one.
    pub(crate) fn wake_other(&self) {
        self.other.unpark();
    }
}

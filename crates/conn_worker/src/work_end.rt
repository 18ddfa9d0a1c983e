//! How the work at a door ends.

/// The maximum number of sessions of a pass. Their numbers go from 1 to this one.
pub const MAX_SESSIONS: u32 = 4_294_967_295;

/// How the work at a door ended.
#[derive(Clone, Copy, Debug, PartialEq, Eq)]
pub enum WorkEnd {
    /// No more links come.
    Closed,
    /// The history holds a stop: `at` events come before it.
    Ended { at: u64 },
    /// The door failed. The stage was stopped, if it was not before.
    DoorFault,
    /// [`MAX_SESSIONS`] links were served.
    SessionsOver,
}

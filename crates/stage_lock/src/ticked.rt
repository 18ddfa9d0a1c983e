//! What a tick of a shared stage returns.

/// The number of a tick, and how many commands the history holds at it.
#[derive(Clone, Copy, Debug, PartialEq, Eq)]
pub struct Ticked {
    /// How many ticks the history holds with this one.
    pub number: u64,
    /// How many commands the history holds, 0 to the limit of its journal. Ticks are no commands.
    pub held: u32,
}

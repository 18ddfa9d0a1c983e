//! The foreground of a layer, as callers see it.

use play_types::Take;

/// The foreground of a layer, without the content that it replaces.
#[derive(Clone, Copy, Debug, PartialEq, Eq)]
pub struct Front {
    pub take: Take,
    /// For how many ticks it was shown, without those at which it was paused.
    pub shown: u64,
    pub paused: bool,
}

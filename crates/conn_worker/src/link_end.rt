//! How the serving of a link ends.

/// How the serving of a link ended.
#[derive(Clone, Copy, Debug, PartialEq, Eq)]
pub enum LinkEnd {
    /// The end of the link was read, or the client sent BYE.
    Over,
    /// A KILL of the client stopped the stage.
    Killed,
    /// The link failed.
    LinkFault,
    /// The history holds a stop that another call made: `at` events come before it.
    Ended { at: u64 },
}

//! The values of keys that a configuration leaves out.

/// The connection workers of a configuration without `connections`.
pub const DEFAULT_CONNECTIONS: u32 = 4;

/// The most commands of the history of a configuration without `journal_limit`.
pub const DEFAULT_JOURNAL_LIMIT: u32 = 4_194_304;

/// The stereo pairs of sound of a channel without `pairs`.
pub const DEFAULT_PAIRS: u32 = 0;

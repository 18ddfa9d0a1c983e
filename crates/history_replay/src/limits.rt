//! A limit of the names that a replay can print.

/// The most bytes that the name of a clip may take with its escapes, so that every command that plays it is one line of a client.
pub const MAX_PRINTED_NAME_BYTES: usize = 3_900;

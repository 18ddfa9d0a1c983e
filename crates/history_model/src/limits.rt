//! Limits of scripts. The definitions in `specs/scripts` cite them.

/// The most bytes that a line of a script may have, its end left out.
pub const MAX_SCRIPT_LINE_BYTES: usize = 8_192;

/// The most ticks that one line of a script may ask for.
pub const MAX_TICKS_PER_LINE: u32 = 100_000;

/// The most bytes that a script may have.
pub const MAX_INPUT_BYTES: u64 = 4_294_967_296;

/// The greatest number of a connection worker that a script may name.
pub const MAX_WORKER: u32 = 65_535;

/// The greatest number of a session that a script may name.
pub const MAX_SESSION: u32 = 4_294_967_295;

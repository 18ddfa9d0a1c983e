//! Limits of cue sheets. The definitions in `specs/` cite them.

/// The latest moment of a sheet, in ticks.
pub const MAX_MOMENT: u32 = 20_736_000;

/// The most copies that one line of a sheet may ask for.
pub const MAX_LINE_COPIES: u32 = 100_000;

/// The most copies that the lines of a sheet may have together.
pub const MAX_COPIES: u32 = 1_000_000;

/// The most bytes that a sheet may have.
pub const MAX_SHEET_BYTES: usize = 268_435_456;

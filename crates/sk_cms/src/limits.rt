//! The limits of a Count-Min sketch, as the code has them.

/// A sketch has from 1 to this many rows.
pub const MOST_ROWS: u32 = 16;

/// A row has from 1 to this many cells.
pub const MOST_WIDTH: u32 = 1_048_576;

/// The most items that a sketch is given.
pub const MOST_COUNTED: u64 = 1 << 46;

//! The width of items and the limits that a run keeps to, as the code has them.

/// 2^63: items and hashes are from 1 and below it, and as theta it stands for 1.
pub const ITEM_END: u64 = 1 << 63;

/// How many digits base 16 takes for an item.
pub const ITEM_DIGITS: usize = 16;

/// Numbers that are read as items are below it: number n is item n + 1.
pub const NUMBER_END: u64 = ITEM_END - 1;

/// The fewest hashes that a sketch is made to keep.
pub const LEAST_K: u32 = 2;

/// The most hashes that a sketch keeps.
pub const MOST_K: u32 = 1_048_576;

/// The most items that an updater's buffers have room for.
pub const MOST_SIZE: u32 = 4_096;

/// The most items that an updater keeps.
pub const MOST_KEPT: u64 = 1 << 40;

/// The most updaters of a hub.
pub const MOST_UPDATERS: u32 = 64;

/// The most bytes of a line, without LF and the CR before it.
pub const LINE_LIMIT: usize = 65_536;

/// Fewer bytes than this are taken of a source that is read to its end.
pub const SOURCE_LIMIT: u64 = 1 << 40;

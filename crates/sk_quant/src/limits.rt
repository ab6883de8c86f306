//! The limits of a quantiles sketch, as the code has them.

/// The least k.
pub const LEAST_QUANTILE_K: u32 = 2;

/// The greatest k.
pub const MOST_QUANTILE_K: u32 = 4_096;

/// 2^48: keys are below it.
pub const KEY_END: u64 = 1 << 48;

/// The most items that a sketch is given.
pub const MOST_ITEMS: u64 = 1 << 46;

/// How many levels stand above the base.
pub const LEVEL_COUNT: usize = 48;

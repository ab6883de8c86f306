//! How long a window is.

/// How many lines a window has if no other number is asked for.
pub const USUAL_WINDOW: u32 = 2_048;

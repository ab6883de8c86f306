//! What a ranking is asked.

/// Which rank is written, by which sketch, and by how many updaters in parallel.
#[derive(Clone, Copy, Debug, PartialEq, Eq)]
pub struct Plan {
    /// How many items a level of the sketch has.
    pub k: u32,
    /// Whose coins it tosses.
    pub key: u64,
    /// The rank of this item is written: how many items are below it. An item is one more than the number that its line
    /// spells, so the rank of a number is that of one more than the number.
    pub at: u64,
    /// How many items a buffer of each updater holds; with no window at least 1,024.
    pub size: u32,
    /// How many updaters there are.
    pub updaters: u32,
    /// With a number n an interim rank is written after each n lines.
    pub window: Option<u32>,
    /// Whether a propagator of its own runs next to the updaters.
    pub propagator: bool,
}

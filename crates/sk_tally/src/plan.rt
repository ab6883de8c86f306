//! What a tally is asked.

/// Which item is counted, by which sketch, and by how many updaters in parallel.
#[derive(Clone, Copy, Debug, PartialEq, Eq)]
pub struct Plan {
    /// How many rows the sketch has.
    pub rows: u32,
    /// How many cells a row has.
    pub width: u32,
    /// The seed under which lines are hashed.
    pub seed: u32,
    /// The item that is counted: the hash of a word under the same seed.
    pub item: u64,
    /// The lines at 0, else the fields in this column, counted from 1, of the records.
    pub column: u32,
    /// How many items a buffer of each updater holds; with no window at least 1,024.
    pub size: u32,
    /// How many updaters there are.
    pub updaters: u32,
    /// With a number n an interim tally is written after each n lines.
    pub window: Option<u32>,
    /// Whether a propagator of its own runs next to the updaters.
    pub propagator: bool,
}

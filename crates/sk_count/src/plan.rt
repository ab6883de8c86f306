//! What a count is asked.

use sk_read::Kind;
use sk_report::Numbers;

/// What is counted, by how many hashes and by how many updaters in parallel.
#[derive(Clone, Copy)]
pub struct Plan {
    /// How many hashes the sketch keeps.
    pub k: u32,
    /// How a line or a field becomes an item.
    pub kind: Kind,
    /// The lines at 0, else the fields in this column, counted from 1, of the records.
    pub column: u32,
    /// How many items a buffer of each updater holds. The last number holds for all further updaters.
    pub sizes: Numbers,
    /// How many updaters there are.
    pub updaters: u32,
    /// With a number n an interim estimate is written after each n lines or records.
    pub window: Option<u32>,
    /// Whether a short stream is handed over item by item.
    pub eager: bool,
    /// Whether a thread of its own propagates for the updaters.
    pub propagator: bool,
    /// The marks of the alarms at the first places of the board.
    pub alarms: Numbers,
    /// How many lines were made to be counted, if the last text is to say so.
    pub made: Option<u64>,
}

//! The Count-Min sketch: how often an item stands in a list, never less than it does.
#![tactic(auto)]

mod item_count;
pub mod laws;
pub mod limits;
mod places;
mod sketch;
mod versioned;

pub use item_count::ItemCount;
pub use places::Places;
pub use sk_model::OutOfMemory;
pub use sketch::CountMin;
pub use versioned::{CmsReader, CmsSetup, Least, Tally, VersionedCms};

//! A source that is read to its end and fed to the updaters of a hub, each full window reported.
#![tactic(auto)]

mod held_blocks;
mod ingesting;
mod item_window;
mod itemized;
mod lanes;
pub mod laws;
mod one_by_one;
mod passing;
mod report;
mod stretches;
mod supply;
mod ways;
mod windowed;
mod windows;
mod word;

pub use ingesting::ingest;
pub use report::{Report, Stop};
pub use sk_feed::feed_block;
pub use sk_fill::Window;
pub use sk_model::OutOfMemory;
pub use sk_read::{Fault, Intake, Kind, Taker, read_items};
pub use word::word_of_source;

//! How a reader of versions learns the told values of the updaters of a hub, and in the end all that they kept.
#![tactic(auto)]

mod closing;
pub mod laws;
mod learning;
mod whole;

pub use closing::{close, read_whole, take_in_all};
pub use learning::learn_all;
pub use sk_model::OutOfMemory;

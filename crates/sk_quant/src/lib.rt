//! The quantiles sketch on one thread (Agarwal and others, "Mergeable Summaries", PODS 2012).
#![tactic(auto)]

mod coins;
mod compaction;
pub mod laws;
pub mod limits;
mod ordered;
mod ranks;
mod sketch;

pub use coins::words_of;
pub use ordered::Ordered;
pub use sk_model::OutOfMemory;
pub use sketch::Quant;

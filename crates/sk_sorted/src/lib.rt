//! The sequential sketch of the k smallest hashes, as a sorted array into which whole batches are merged.
#![tactic(auto)]

mod kind;
mod least;
mod piece;
mod sorted_theta;

pub use sk_model::OutOfMemory;
pub use sorted_theta::SortedTheta;

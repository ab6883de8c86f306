//! The sequential sketch of the k smallest hashes, as a heap with a probing table.
#![tactic(auto)]

mod at_home;
mod heap_theta;
mod held;
mod kind;
mod places;
mod table;
mod walk;

pub use heap_theta::HeapTheta;
pub use sk_model::OutOfMemory;

//! The sequential sketch of the k smallest hashes, as a sorted array.
#![tactic(auto)]

mod array;
mod place;
mod reply;
mod sizes;

pub use array::{Theta, theta_among};
pub use reply::{Reply, unpack};
pub use sizes::{BadShape, Shape};
pub use sk_model::OutOfMemory;
pub use sk_model::limits::ITEM_END;

//! What a sketch owes to be run concurrently, and the buffers that are handed to it.
#![tactic(auto)]

mod buffer;
mod composable;
pub mod laws;
mod theta;
mod theta_kind;

pub use buffer::{Buffer, Parcel};
pub use composable::Composable;
pub use sk_model::OutOfMemory;
pub use theta_kind::{ThetaKind, ThetaWord};

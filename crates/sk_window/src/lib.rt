//! Distinct counts over the last intervals: a hub for the running one, and a sketch for each closed one.
#![tactic(auto)]

mod answers;
mod frame;
mod hub;
mod joins;
pub mod laws;
mod panes;
mod room;
mod sketches;

pub use answers::{Advance, Finish, Started, Updaters};
pub use frame::Frame;
pub use panes::Panes;
pub use sk_model::OutOfMemory;

//! The shared table of a hub: its rule, its steps, and the seats that take them.
#![tactic(auto)]

mod heart;
pub mod laws;
mod load;
mod merge;
mod plays;
mod propagate;
mod rule;
mod seat;
mod start;
mod token;
mod updater;

pub use load::{Held, Trunk};
pub use merge::merge_batch;
pub use seat::{HeartSeat, OfHeart, OfUpdater, Propagator, Role, UpdaterSeat};
pub use sk_model::OutOfMemory;
pub use start::{Made, make};
pub use token::{NoteSeat, TokenSeat};

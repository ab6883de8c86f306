//! Takers of stretches, each in a thread of its own that lasts while stretches are read, and the supply that gives them
//! these.
#![tactic(auto)]

mod lanes;
mod pool;
mod supply;

pub use lanes::{Crewed, finish, open_lanes, run_beside};
pub use sk_feed::{Crew, Lane, TakesStretches};
pub use sk_fill::Stretch;
pub use sk_model::OutOfMemory;
pub use supply::{ENOUGH, Supply};

//! Blocks of windows, fed to the updaters of a hub: one after another, or in threads.
#![tactic(auto)]

mod beside;
mod block_items;
mod crew;
mod delivery;
mod drain;
mod feed;
mod feeder;
mod feeders;
mod lane;
pub mod laws;
mod propagation;
mod settle;
mod taking;
mod turns;

pub use crew::Crew;
pub use delivery::{Delivery, InOrder, Inlet, Outlet};
pub use drain::drain_all;
pub use feed::{feed_block, insist, offer};
pub use feeders::Feeders;
pub use lane::{Lane, MOST_GIVEN};
pub use propagation::{Propagation, propagate};
pub use settle::settle_all;
pub use taking::{TakesStretches, are_eager, take_turns};
pub use turns::feed_in_turn;

//! The ranking command: how many numbers of a source lie below one, counted by many updaters of one hub.
#![tactic(auto)]

pub mod laws;
mod line;
mod plan;
mod ranking;

pub use plan::Plan;
pub use ranking::{Ranked, rank};
pub use sk_read::Fault;

//! The tallying command: how often an item stands among the lines of a source, counted by many updaters of one hub.
#![tactic(auto)]

pub mod laws;
mod line;
mod plan;
mod tallying;
mod whole;

pub use plan::Plan;
pub use sk_read::Fault;
pub use tallying::tally;

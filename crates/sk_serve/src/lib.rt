//! The serving command: clients' sessions in parallel, over links that a door accepts, by the updaters of one hub.
#![tactic(auto)]

mod accepting;
mod fault;
pub mod laws;
mod plan;
mod serving;
mod text;
mod waves;

pub use fault::ServeFault;
pub use plan::ServePlan;
pub use serving::serve;

//! Many hubs by name: a hub of its own for each tenant, and desks with an updater of each.
#![tactic(auto)]

mod answers;
mod desk;
mod draining;
mod ends;
mod guesses;
pub mod laws;
mod names;
mod opening;
mod room;
mod sketch;
mod tenants;

pub use answers::{Add, Opening, TenantStop};
pub use desk::Desk;
pub use names::{Finder, MOST_TENANTS, Names};
pub use sk_model::OutOfMemory;
pub use tenants::Tenants;

//! The concurrent protocol as pure machines, each with its invariant, its events and their laws.
#![tactic(auto)]

pub mod laws;
mod states;
pub mod views;

pub use states::{Mark, Progress};

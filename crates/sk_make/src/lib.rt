//! The text that is made of a key, as a source.
#![tactic(auto)]

pub mod laws;
mod line;
mod numbers;
mod source;

pub use sk_model::OutOfMemory;
pub use source::{MOST_MADE, MakeSource};

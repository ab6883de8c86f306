//! What the contracts of the other crates speak of: definitions in `specs/`, the laws that hold of them,
//! their limits as constants, and a plain slow form of the sketch. An edit here proves every crate above anew.
#![tactic(auto)]

pub mod laws;
pub mod limits;
mod memory;
pub mod plain;

pub use memory::OutOfMemory;

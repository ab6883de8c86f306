//! A line of all items of a source, counted by many updaters of one hub of versioned sketches, and interim lines after
//! full windows.
#![tactic(auto)]

mod ending;
mod interim;
pub mod laws;
mod line;
mod opening;
mod telling;
mod text;

pub use line::Line;
pub use opening::buffer_size;
pub use sk_read::Fault;
pub use telling::{Handles, Telling, tell};
pub use text::write_labelled;

//! The program without its edge: what it does over any source and any sinks.
#![tactic(auto)]

mod answering;
mod command;
mod commands;
mod execute;
mod fault;
pub mod laws;
mod names;
mod options;
mod program;
mod remains;
mod values;
mod watchers;
mod write;

pub use command::is_request;
pub use commands::about::HELP;
pub use options::Verb;
pub use program::run;
pub use remains::Remains;
pub use sk_make::MakeSource;
pub use watchers::{BOARD_PLACES, board_of};

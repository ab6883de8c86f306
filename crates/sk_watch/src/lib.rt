//! Watchers of a sketch's replies, boxed, each at its place on a board.
#![tactic(auto)]

mod alarm;
mod board;
pub mod laws;
mod watcher;

pub use alarm::Alarm;
pub use board::{Board, Seen};
pub use sk_theta::Reply;
pub use watcher::Watcher;

//! What commands that count have in common: rows of numbers, the alarms of a board, the lines of estimates, and the
//! handles that are left.
#![tactic(auto)]

mod alarms;
mod numbers;
mod remains;
mod text;
mod windows;

pub use alarms::arm;
pub use numbers::Numbers;
pub use remains::Remains;
pub use text::{write_alarms, write_at, write_estimate, write_interim, write_number};
pub use windows::USUAL_WINDOW;

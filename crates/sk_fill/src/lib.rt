//! Windows of lines, filled from a source, and the items of their lines that a hint keeps.
#![tactic(auto)]

mod block;
mod filling;
mod gathered;
mod good;
mod held;
pub mod laws;
mod page;
mod stretch;
mod window;
mod window_lines;

pub use block::Block;
pub use filling::fill;
pub use gathered::{Gathered, gather, gather_all};
pub use good::is_good;
pub use stretch::{Stretch, fill_stretch};
pub use window::Window;
pub use window_lines::WindowLines;

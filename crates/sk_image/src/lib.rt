//! Images: the k smallest hashes of a sketch as text, with the numbers that shaped it.
#![tactic(auto)]

mod draft;
mod image;
pub mod laws;
mod lines;
mod merge;
mod part;
mod reader;
mod stop;
mod version;
mod writer;

pub use image::Image;
pub use lines::MOST_LINE;
pub use merge::{JoinStop, join};
pub use reader::read;
pub use sk_model::OutOfMemory;
pub use stop::ReadStop;
pub use version::NEWEST_VERSION;
pub use writer::{WriteStop, put_first_line, write};

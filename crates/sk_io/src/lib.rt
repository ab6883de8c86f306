//! Where bytes come from and where they go: streams and files with counts of faults, in memory and
//! over std.
#![tactic(auto)]

mod bounded;
mod door;
mod file_shelf;
mod link;
mod mem_door;
mod mem_link;
mod mem_shelf;
mod mem_sink;
mod mem_source;
mod open_file;
mod opener;
mod outlet;
mod plan;
mod rest;
mod shelf;
mod standard;
mod steps;
mod stream;
mod sure_source;
mod words;

pub use bounded::{BoundFault, read_within};
pub use door::{Door, DoorFault};
pub use file_shelf::FileShelf;
pub use link::{Link, OnLink, send_all};
pub use mem_door::MemDoor;
pub use mem_link::MemLink;
pub use mem_shelf::{MemFile, MemShelf};
pub use mem_sink::MemSink;
pub use mem_source::MemSource;
pub use open_file::{NotOpened, OpenFile};
pub use opener::Opener;
pub use outlet::Outlet;
pub use shelf::{OnShelf, Shelf};
pub use sk_model::OutOfMemory;
pub use standard::{StdSink, StdSource};
pub use steps::{count_fault, read_some, write_some};
pub use stream::{Failed, Sink, Source, write_all};
pub use sure_source::SureSource;
pub use words::{text_or_empty, words_of};

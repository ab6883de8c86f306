//! The way from a stream of bytes to items: its lines or a column of its records, what makes one of
//! these an item, and who takes it.
#![tactic(auto)]

mod fault;
mod items;
mod kind;
mod lines;
mod reader;
mod records;
mod short_numbers;
mod takers;
mod units;
mod wide;

pub use fault::Fault;
pub use items::{Intake, Taker, read_items};
pub use kind::Kind;
pub use reader::{LineFault, LineReader, TEXT_ROOM};
pub use short_numbers::are_short_numbers;
pub use sk_model::limits::LINE_LIMIT;
pub use units::{UnitTaker, Units, read_units};
pub use wide::read_number_at;

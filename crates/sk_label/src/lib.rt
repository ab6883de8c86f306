//! Lines of two parts, a label and the text of an item: read one after another, each refused or
//! taken by the rules of a command.
#![tactic(auto)]

mod carrier;
mod fault;
mod parts;
mod spaces;
mod taker;

pub use carrier::read_labelled;
pub use fault::{LabelFault, LineStop};
pub use parts::{Parts, split, split_short};
pub use taker::LineTaker;

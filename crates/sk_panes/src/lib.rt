//! Distinct counts over the last intervals of time, of lines with moments: a pane for each interval that ends.
#![tactic(auto)]

mod candidates;
mod command;
mod label;
pub mod laws;
mod plan;
mod running;
mod taker;
mod text;

pub use command::window;
pub use plan::{MOMENT_END, Plan};
pub use sk_label::LabelFault;

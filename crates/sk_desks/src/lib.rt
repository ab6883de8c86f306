//! Items counted for each of many tenants: labelled lines, given to desks in threads, and a line for
//! each tenant once they have ended.
#![tactic(auto)]

mod calls;
mod clerk;
mod command;
mod ending;
mod even;
mod examined;
mod feed;
mod gather;
mod lanes;
mod plan;
mod stretch;
mod taker;
mod window;

pub use command::tenants;
pub use plan::Plan;

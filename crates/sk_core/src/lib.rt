//! The machine of all interleavings, which runs one given schedule.
#![tactic(auto)]

mod answer;
mod event;
pub mod laws;
mod state;
mod text;
mod token;
mod updater;

pub use answer::push_answer;
pub use event::{Answer, Event, NotEnabled};
pub use state::State;
pub use text::{read_event, read_machine, read_vacant};

//! The running hub: updaters that hand their items over, the heart that propagates them, and tokens that ask.
#![tactic(auto)]

mod answers;
mod heart;
mod laws;
mod opened;
mod round;
mod token;
mod updater;

pub use answers::{Admit, Drain, Flush, Help, Serve, Settle, Sweep, Update};
pub use heart::Heart;
pub use laws::{an_ask_has_what_was_taken_in, drained_is_taken_in, taken_in_stays};
pub use opened::{Opened, open, open_sized};
pub use sk_model::OutOfMemory;
pub use token::{Note, Token};
pub use updater::Updater;

//! Sessions: the requests of a client over a link, each answered by an updater of a hub.
#![tactic(auto)]

mod answers;
mod heart_pump;
mod help_pump;
mod jobs;
pub mod laws;
mod pumps;
mod requests;
mod serving;
mod sessions;

pub use answers::Answer;
pub use heart_pump::HeartPump;
pub use help_pump::HelpPump;
pub use jobs::{Job, serve_links};
pub use pumps::{NoPump, Pump};
pub use requests::Request;
pub use sessions::{End, session};

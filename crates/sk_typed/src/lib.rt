//! Words as people type them: `--k=8` for `--k 8`, `--decimal D` for decimal numbers, and the help of one command.
#![tactic(auto)]

mod help;
mod spelling;
mod typed;

pub use help::{help_of, show_help};
pub use spelling::{verb_of, verb_word};
pub use typed::Typed;

//! Callers of the crates that the program stands on, and tests of their public calls.
#![tactic(auto)]

#[cfg(test)]
mod tests;

//! Callers of the crates below the hub, and tests of their public calls.
#![tactic(auto)]

#[cfg(test)]
mod tests;

//! Callers of a hub, its table, its lanes, its sessions and its versions, and tests of their public calls.
#![tactic(auto)]

#[cfg(test)]
mod tests;

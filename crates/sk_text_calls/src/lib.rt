//! Callers of what reads images, items and schedules, and tests of their public calls.
#![tactic(auto)]

#[cfg(test)]
mod tests;

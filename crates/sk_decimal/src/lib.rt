//! A sink that writes the fraction at the end of each line as a rounded decimal number.
#![tactic(auto)]

mod account;
mod buffer;
pub mod laws;
mod places;
mod rounding;
mod words;

pub use buffer::Line;
pub use places::Digits;
pub use rounding::Rounding;
pub use sk_model::OutOfMemory;

#[cfg(test)]
mod tests;

//! Laws of the machines. Each function is empty: its contract is the law.

pub mod coarse;
pub mod fine;
pub mod shown;

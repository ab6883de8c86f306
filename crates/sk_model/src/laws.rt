//! Laws of the definitions. Each function is empty: its contract is the law.

pub mod entries;
pub mod hash;
pub mod lines;
pub mod missing;
pub mod numbers;
pub mod sketch;
pub mod worked;
pub mod worked_lines;
pub mod worked_sketch;

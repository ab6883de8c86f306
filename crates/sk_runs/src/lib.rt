//! Whole runs of the program in memory, as tables: words, the text that is read, and what is due.
#![tactic(auto)]

#[cfg(test)]
mod tests;

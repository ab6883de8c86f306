//! Lines out of a text that comes in pieces, and numbers, fractions and hashes as text.
#![tactic(auto)]

mod cutter;
mod decimals;
mod group;
mod hashes;
pub mod laws;
mod marks;
mod padded;
mod runs;
mod spans;

pub use cutter::{Ending, Lines, MOST_LIMIT, MOST_PIECE, Next, line_len};
pub use decimals::{
    ESTIMATE_LINE_LEN, are_digits, decimal_len, push_fraction, put_decimal, put_estimate,
    put_estimate_line, put_fraction, put_text, read_number,
};
pub use group::cut_group;
pub use hashes::{HASH_LINE_LEN, hash_line, read_hash};
pub use marks::{BLOCK, lfs_of_block, seek, take_lf};
pub use padded::Padded;
pub use runs::{even_len, skip_lfs};
pub use sk_model::OutOfMemory;
pub use spans::{GROUP, Span, cut_lines, find_ends};

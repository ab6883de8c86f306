// What is between quotes in 64 bytes of a text of records, found by masks of them.
ghost use Rattle.std.specs.Prelude.{◌≡◌, ◌≢◌, ◌⊎◌, ℕ, ◌+◌, ◌-◌, ◌%◌, ◌<◌, ◌≤◌, true, length, take, drop, IfSome};
ghost use Rattle.std.specs.Int.{bit_at};
ghost use Rattle.sk_read.specs.Scan.{state_of, IsCut};
ghost use Rattle.sk_read.specs.Quotes.{inside_bit, PlaceAfter};
ghost use Rattle.sk_read.specs.declared.records.scan.ScanState.TheVariants as scan;

use crate::records::delimiters::{BLOCK, delimiters_of_block, ends_of_block, marks_of_block};
use crate::records::scan::{ScanState, unquoted};

// What `scan` returns for the 64 bytes at a place, if there are quotes among them, each of which begins a field, stands
// within quotes or ends them. `None` for others.
#[inline]
pub(crate) fn scan_block(start: ScanState, bytes: &[u8], at: usize) -> Option<(ScanState, usize)>
    requires { at + 64 ≤ length bytes.now }
    ensures cut { IfSome result (λ found. IsCut (state_of start) (take 64 (drop at bytes.now)) (state_of found.0) found.1) }
    ensures within { IfSome result (λ found. found.1 ≤ 64) }
{
    let quotes = marks_of_block(bytes, at, b'"');
    if quotes == 0 {
        return None;
    }
    let within = between_quotes(start, quotes);
    let may_begin = next_places(start, delimiters_of_block(bytes, at) | quotes);
    if !are_among(quotes, within, may_begin) {
        return None;
    }
    let cut = end_of(without(ends_of_block(bytes, at), within));
    Some((place_after(within, bytes[at + (BLOCK - 1)]), cut))
}

// Bit k says whether the place after byte k is between quotes.
#[inline(always)]
fn between_quotes(start: ScanState, quotes: u64) -> u64
    ensures first { bit_at result 0 ≡ (inside_bit start + bit_at quotes 0) % 2 }
    ensures next { (k : ℕ) → k < 63 → bit_at result (k + 1) ≡ (bit_at result k + bit_at quotes (k + 1)) % 2 }
{
    parity_of(quotes) ^ all_or_none(start)
}

// All bits between quotes, elsewhere none.
#[inline(always)]
fn all_or_none(start: ScanState) -> u64
    ensures { (k : ℕ) → k < 64 → bit_at result k ≡ inside_bit start }
{
    if let ScanState::InQuotes = start {
        return u64::MAX;
    }
    0
}

// Bit k says whether the marks up to place k are odd in number.
#[inline(always)]
fn parity_of(marks: u64) -> u64
    ensures first { bit_at result 0 ≡ bit_at marks 0 }
    ensures next { (k : ℕ) → k < 63 → bit_at result (k + 1) ≡ (bit_at result k + bit_at marks (k + 1)) % 2 }
{
    let of_2 = with_below(marks, 1);
    let of_4 = with_below(of_2, 2);
    let of_8 = with_below(of_4, 4);
    let of_16 = with_below(of_8, 8);
    let of_32 = with_below(of_16, 16);
    with_below(of_32, 32)
}

// Each bit turned over if the one `by` places below it is set.
#[inline(always)]
fn with_below(bits: u64, by: u32) -> u64
    requires { by < 64 }
    ensures low { (k : ℕ) → k < by → bit_at result k ≡ bit_at bits k }
    ensures high { (k : ℕ) → by ≤ k → k < 64 → bit_at result k ≡ (bit_at bits k + bit_at bits (k - by)) % 2 }
{
    bits ^ (bits << by)
}

// The places after marks, and the first one if quotes may begin there.
#[inline(always)]
fn next_places(start: ScanState, marks: u64) -> u64
    ensures first { bit_at result 0 ≡ 1 → start ≢ scan.InField }
    ensures next { (k : ℕ) → k < 63 → bit_at result (k + 1) ≡ 1 → bit_at marks k ≡ 1 }
{
    (marks << 1) | first_place(start)
}

#[inline(always)]
fn first_place(start: ScanState) -> u64
    ensures bit { result < 2 }
    ensures set { result ≡ 1 → start ≢ scan.InField }
{
    if let ScanState::InField = start {
        return 0;
    }
    1
}

// Whether the marks that two masks have in common are all in a third.
#[inline(always)]
fn are_among(one: u64, other: u64, all: u64) -> bool
    ensures { result ≡ true → (k : ℕ) → k < 64 → bit_at one k ≡ 1 → bit_at other k ≡ 1 → bit_at all k ≡ 1 }
{
    one & other & !all == 0
}

// The marks that another mask has not.
#[inline(always)]
fn without(marks: u64, others: u64) -> u64
    ensures set { (k : ℕ) → k < 64 → bit_at result k ≡ 1 → (bit_at marks k ≡ 1) × (bit_at others k ≡ 0) }
    ensures unset { (k : ℕ) → k < 64 → bit_at result k ≡ 0 → bit_at marks k ≡ 1 → bit_at others k ≡ 1 }
{
    marks & !others
}

// The place after the highest mark, or 0 if there is none.
#[inline(always)]
fn end_of(marks: u64) -> usize
    ensures bound { result ≤ 64 }
    ensures set { 0 < result → bit_at marks (result - 1) ≡ 1 }
    ensures above { (k : ℕ) → result ≤ k → bit_at marks k ≡ 0 }
{
    BLOCK - marks.leading_zeros() as usize
}

// The place after the last byte of a block, of which the highest bit says whether it is between quotes.
#[inline(always)]
fn place_after(within: u64, last: u8) -> ScanState
    ensures { PlaceAfter (bit_at within 63) last (state_of result) }
{
    if within >> 63 == 1 {
        return ScanState::InQuotes;
    }
    if last == b'"' {
        return ScanState::AfterQuote;
    }
    unquoted(last)
}

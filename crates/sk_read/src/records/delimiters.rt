// Where the LFs, CRs and commas of a text lie, found 64 bytes at a time.
ghost use Rattle.std.specs.Prelude.{◌≡◌, ◌≢◌, ◌↔◌, ◌⊎◌, ℕ, List, ◌+◌, ◌-◌, ◌<◌, ◌≤◌, length, slice_index};
ghost use Rattle.std.specs.Int.{bit_at};
ghost use Rattle.sk_read.specs.Delimiters.{IsDelimiter, IsNextDelimiter, Knows};
ghost use Rattle.sk_read.specs.Scan.{IsEnd};

use memchr::memchr3;
use std::simd::prelude::*;

// How many places a mask has.
pub(crate) const BLOCK: usize = 64;

// The delimiters before a place that are still to be taken: bit k stands for the k-th of the 64 places there.
#[derive(Clone, Copy)]
pub(crate) struct Ahead {
    scanned: usize,
    marks: u64,
}

impl Ahead {
    // Nothing is scanned yet.
    pub(crate) const NONE: Ahead = Ahead {
        scanned: 0,
        marks: 0,
    };
}

// The place of the first LF, CR or comma from a place on, or the end of the text.
#[inline(always)]
pub(crate) fn next_delimiter(text: &[u8], at: usize, ahead: Ahead) -> (usize, Ahead)
    requires { Knows text.now at ahead }
    ensures next { IsNextDelimiter text.now at result.0 }
    ensures known { result.0 < length text.now → Knows text.now (result.0 + 1) result.1 }
{
    if ahead.marks != 0 {
        return take_mark(text, at, ahead);
    }
    let ahead = scan_blocks(text, at, ahead.scanned);
    if ahead.marks != 0 {
        return take_mark(text, at, ahead);
    }
    let place = last_delimiter(text, ahead.scanned);
    (
        place,
        Ahead {
            scanned: place + 1,
            marks: 0,
        },
    )
}

// Continues to the end of the first block with delimiters, or to the last bytes, which are no block.
fn scan_blocks(text: &[u8], at: usize, from: usize) -> Ahead
    requires { Knows text.now at (record { scanned = from; marks = 0 }) }
    ensures { Knows text.now at result }
{
    let mut scanned = from;
    'block: while text.len() - scanned >= BLOCK {
        let marks = delimiters_of_block(text, scanned);
        scanned += BLOCK;
        if marks != 0 {
            return Ahead { scanned, marks };
        }
    }
    Ahead { scanned, marks: 0 }
}

// The same, by a search from that place on.
pub(crate) fn last_delimiter(text: &[u8], at: usize) -> usize
    requires { at ≤ length text.now }
    ensures { IsNextDelimiter text.now at result }
{
    match memchr3(b'\n', b'\r', b',', &text[at..]) {
        Some(place) => at + place,
        None => text.len(),
    }
}

// The place of the first mark, and the marks after it.
#[inline(always)]
fn take_mark(text: &[u8], at: usize, ahead: Ahead) -> (usize, Ahead)
    requires known { Knows text.now at ahead }
    requires some { ahead.marks ≢ 0 }
    ensures next { IsNextDelimiter text.now at result.0 }
    ensures known { Knows text.now (result.0 + 1) result.1 }
{
    let mark = lowest_mark(ahead.marks);
    let left = Ahead {
        scanned: ahead.scanned,
        marks: without_mark(ahead.marks, mark),
    };
    (ahead.scanned + mark - BLOCK, left)
}

// Bit k says whether the byte at place `at + k` is LF, CR or a comma.
#[inline(always)]
pub(crate) fn delimiters_of_block(bytes: &[u8], at: usize) -> u64
    requires { at + 64 ≤ length bytes.now }
    ensures { (k : ℕ) → (bit_at result k ≡ 1) ↔ ((k < 64) × IsDelimiter (slice_index bytes.now (at + k))) }
{
    ends_of_block(bytes, at) | marks_of_block(bytes, at, b',')
}

// Bit k says whether the byte at place `at + k` is LF or CR.
#[inline(always)]
pub(crate) fn ends_of_block(bytes: &[u8], at: usize) -> u64
    requires { at + 64 ≤ length bytes.now }
    ensures { (k : ℕ) → (bit_at result k ≡ 1) ↔ ((k < 64) × IsEnd (slice_index bytes.now (at + k))) }
{
    marks_of_block(bytes, at, b'\n') | marks_of_block(bytes, at, b'\r')
}

// Bit k says whether the byte at place `at + k` is this one.
#[inline(always)]
pub(crate) fn marks_of_block(bytes: &[u8], at: usize, byte: u8) -> u64
    requires within { at + 64 ≤ length bytes.now }
    requires some { 0 < byte }
    ensures { (k : ℕ) → (bit_at result k ≡ 1) ↔ ((k < 64) × (slice_index bytes.now (at + k) ≡ byte)) }
{
    u8x64::from_slice(&bytes[at..])
        .simd_eq(u8x64::splat(byte))
        .to_bitmask()
}

// The place of the lowest mark.
#[inline(always)]
pub(crate) fn lowest_mark(marks: u64) -> usize
    requires { marks ≢ 0 }
    ensures bound { result < 64 }
    ensures set { bit_at marks result ≡ 1 }
    ensures below { (k : ℕ) → k < result → bit_at marks k ≡ 0 }
{
    marks.trailing_zeros() as usize
}

// The marks without one of them.
#[inline(always)]
fn without_mark(marks: u64, place: usize) -> u64
    requires { place < 64 }
    ensures kept { (k : ℕ) → k < 64 → k ≢ place → bit_at result k ≡ bit_at marks k }
    ensures cleared { bit_at result place ≡ 0 }
    ensures no_more { (k : ℕ) → bit_at result k ≡ 1 → bit_at marks k ≡ 1 }
{
    marks & !(1 << place)
}

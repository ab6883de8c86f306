// Where the LFs of a buffer stand, as bits of a mask of 64 places.
ghost use Rattle.std.specs.Prelude.{◌≡◌, ◌≢◌, ◌↔◌, ℕ, List, ◌+◌, ◌<◌, ◌≤◌, length, slice_index};
ghost use Rattle.std.specs.Int.{bit_at};
ghost use Rattle.sk_lines.specs.Marks.{KnowsLfs, TakesLf};

use std::simd::prelude::*;

/// How many bytes one mask is of. A text that is searched has as many zeros after it.
pub const BLOCK: usize = 64;

pub(crate) const LF: u8 = b'\n';

/// Continues to the end of the first block from `scanned` on that has an LF, and returns that place and the block's
/// LFs as marks: bit k stands for the byte k places after the block's start. While marks are left it stays.
#[inline(always)]
pub fn seek(bytes: &[u8], scanned: usize, marks: u64) -> (usize, u64)
    requires padded { BLOCK ≤ length bytes.now }
    requires within { scanned ≤ length bytes.now }
    requires block { marks ≢ 0 → BLOCK ≤ scanned }
    ensures known { (at : ℕ) → KnowsLfs bytes.now at scanned marks → KnowsLfs bytes.now at result.0 result.1 }
    ensures block { result.1 ≢ 0 → BLOCK ≤ result.0 }
    ensures none { result.1 ≡ 0 → length bytes.now ≤ result.0 + BLOCK }
    ensures bound { result.0 ≤ length bytes.now }
{
    if marks != 0 {
        return (scanned, marks);
    }
    search(bytes, scanned)
}

fn search(bytes: &[u8], from: usize) -> (usize, u64)
    requires padded { BLOCK ≤ length bytes.now }
    requires within { from ≤ length bytes.now }
    ensures known { (at : ℕ) → KnowsLfs bytes.now at from 0 → KnowsLfs bytes.now at result.0 result.1 }
    ensures block { result.1 ≢ 0 → BLOCK ≤ result.0 }
    ensures none { result.1 ≡ 0 → length bytes.now ≤ result.0 + BLOCK }
    ensures bound { result.0 ≤ length bytes.now }
{
    let mut scanned = from;
    'search: while scanned < bytes.len() - BLOCK {
        let marks = lfs_of_block(bytes, scanned);
        scanned += BLOCK;
        if marks != 0 {
            return (scanned, marks);
        }
    }
    (scanned, 0)
}

/// The LFs of the 64 bytes from `at` on: bit k is set if the byte at place `at + k` is LF.
#[inline(always)]
pub fn lfs_of_block(bytes: &[u8], at: usize) -> u64
    requires { at + 64 ≤ length bytes.now }
    ensures { (k : ℕ) → (bit_at result k ≡ 1) ↔ ((k < 64) × (slice_index bytes.now (at + k) ≡ 10)) }
{
    u8x64::from_slice(&bytes[at..])
        .simd_eq(u8x64::splat(LF))
        .to_bitmask()
}

/// The place of the first marked LF, and the marks after it.
#[inline(always)]
pub fn take_lf(scanned: usize, marks: u64) -> (usize, u64)
    requires block { BLOCK ≤ scanned }
    requires some { marks ≢ 0 }
    ensures { (bytes : List ℕ) (at : ℕ) → KnowsLfs bytes at scanned marks
        → TakesLf bytes at scanned result.0 result.1 }
{
    let mark = lowest_mark(marks);
    (scanned - BLOCK + mark, without_mark(marks, mark))
}

// The place of the lowest mark, or the last place if there is none.
#[inline(always)]
pub(crate) fn lowest_mark(marks: u64) -> usize
    ensures bound { result < 64 }
    ensures set { marks ≢ 0 → bit_at marks result ≡ 1 }
    ensures below { (k : ℕ) → k < result → bit_at marks k ≡ 0 }
{
    (marks | (1 << 63)).trailing_zeros() as usize
}

// The marks without one of them.
#[inline(always)]
pub(crate) fn without_mark(marks: u64, place: usize) -> u64
    requires { place < 64 }
    ensures kept { (k : ℕ) → k < 64 → k ≢ place → bit_at result k ≡ bit_at marks k }
    ensures cleared { bit_at result place ≡ 0 }
    ensures no_more { (k : ℕ) → bit_at result k ≡ 1 → bit_at marks k ≡ 1 }
    ensures none { marks ≡ 0 → result ≡ 0 }
{
    marks & !(1 << place)
}

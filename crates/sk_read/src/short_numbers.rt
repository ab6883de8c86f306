// Whether a text is of short numbers alone, 64 bytes at a time.
ghost use Rattle.std.specs.Prelude.{◌≡◌, ◌↔◌, ℕ, ◌+◌, ◌<◌, ◌≤◌, true, false, length, slice_index, All};
ghost use Rattle.std.specs.Int.{bit_at};
ghost use Rattle.sk_model.specs.Lines.{lines_of};
ghost use Rattle.sk_lines.specs.Cutter.{IsOfWholeLines};
ghost use Rattle.sk_read.specs.ShortNumbers.{IsShortNumber, HasNoCr, IsDigitOrLf, AreDense};

use sk_lines::{BLOCK, lfs_of_block};
use std::simd::prelude::*;

// How far apart blocks begin: each 15 bytes in a row lie in one of them.
const STEP: usize = 48;

/// Whether each line of a text of whole lines has at most 14 digits, and nothing else; an empty line does.
/// A line that is ended by CR and LF does not.
pub fn are_short_numbers(run: &[u8]) -> bool
    requires whole { IsOfWholeLines run.now }
    ensures short { result ≡ true → All IsShortNumber (lines_of run.now) }
    ensures exact { All IsShortNumber (lines_of run.now) × HasNoCr run.now → result ≡ true }
{
    if run.len() < BLOCK {
        return are_few_dense(run);
    }
    let last = run.len() - BLOCK;
    let mut at = 0;
    'block: while at < last {
        if !is_dense_block(run, at) {
            return false;
        }
        at += STEP;
    }
    is_dense_block(run, last)
}

// The same of less than a block: LFs after it change nothing.
fn are_few_dense(run: &[u8]) -> bool
    requires { length run.now < 64 }
    ensures { (result ≡ true) ↔ AreDense run.now 0 (length run.now) }
{
    let mut block = [b'\n'; BLOCK];
    block[..run.len()].copy_from_slice(run);
    is_dense_block(&block, 0)
}

// Whether 64 bytes are digits and LFs, with an LF among each 15 of them in a row.
#[inline(always)]
fn is_dense_block(text: &[u8], at: usize) -> bool
    requires { at + 64 ≤ length text.now }
    ensures { (result ≡ true) ↔ AreDense text.now at (at + 64) }
{
    are_digits_or_lfs(text, at) && !has_long_line(lfs_of_block(text, at))
}

#[inline(always)]
fn are_digits_or_lfs(text: &[u8], at: usize) -> bool
    requires { at + 64 ≤ length text.now }
    ensures { (result ≡ true) ↔ ((k : ℕ) → k < 64 → IsDigitOrLf (slice_index text.now (at + k))) }
{
    let block = u8x64::from_slice(&text[at..]);
    let not_digits = (block - u8x64::splat(b'0')).simd_gt(u8x64::splat(9));
    (not_digits & block.simd_ne(u8x64::splat(b'\n'))).to_bitmask() == 0
}

// Whether 15 bytes in a row are no LFs.
#[inline(always)]
fn has_long_line(lfs: u64) -> bool
    ensures some { result ≡ true
        → (i : ℕ) × (i + 15 ≤ 64) × ((k : ℕ) → k < 15 → bit_at lfs (i + k) ≡ 0) }
    ensures none { result ≡ false
        → (i : ℕ) → i + 15 ≤ 64 → ¬ ((k : ℕ) → k < 15 → bit_at lfs (i + k) ≡ 0) }
{
    // bit k of each is set if none of the bytes from byte k on, as many as its name says, is LF
    let one = !lfs;
    let two = one & (one >> 1);
    let four = two & (two >> 2);
    let eight = four & (four >> 4);
    let fifteen = eight & (eight >> 7);
    fifteen != 0
}

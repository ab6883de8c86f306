// Where the first space of a line stands.
ghost use Rattle.std.specs.Prelude.{◌≡◌, ◌≢◌, ◌↔◌, ℕ, ◌+◌, ◌<◌, ◌≤◌, ◌-◌, false, length, slice_index, slice_range, IfSome, IfNone};
ghost use Rattle.std.specs.Int.{bit_at};
ghost use Rattle.std.specs.List.{position_or_len};
ghost use Rattle.sk_label.specs.Labels.{is_space};

use std::simd::prelude::*;

// As many bytes are compared at once.
const BLOCK: usize = 16;

/// The place of the first space, or the length of a line without one.
#[inline(always)]
pub(crate) fn first_space(line: &[u8]) -> usize
    ensures place { result ≡ position_or_len is_space line.now }
    ensures within { result ≤ length line.now }
{
    let mut at = 0;
    'block: while at + BLOCK <= line.len() {
        let spaces = spaces_of_block(line, at);
        if spaces != 0 {
            return at + spaces.trailing_zeros() as usize;
        }
        at += BLOCK;
    }
    first_space_from(line, at)
}

/// The place of the first space of a line that lies in a text, if it is one of the first 16 bytes and the text has them.
#[inline(always)]
pub(crate) fn first_space_in(text: &[u8], from: usize, to: usize) -> Option<usize>
    requires order { from ≤ to }
    requires within { to ≤ length text.now }
    ensures place { IfSome result (λ at. at ≡ position_or_len is_space (slice_range text.now from to)) }
    ensures inside { IfSome result (λ at. at < to - from) }
    ensures none { IfNone result (from + 16 ≤ length text.now → position_or_len is_space (slice_range text.now from to) < to - from
        → 16 ≤ position_or_len is_space (slice_range text.now from to)) }
{
    if text.len() - from < BLOCK {
        return None;
    }
    let spaces = spaces_of_block(text, from);
    if spaces == 0 {
        return None;
    }
    let at = spaces.trailing_zeros() as usize;
    if to - from <= at {
        return None;
    }
    Some(at)
}

// The spaces of the 16 bytes from `at` on: bit k is set if the byte at place `at + k` is one.
#[inline(always)]
fn spaces_of_block(line: &[u8], at: usize) -> u64
    requires { at + 16 ≤ length line.now }
    ensures { (k : ℕ) → (bit_at result k ≡ 1) ↔ ((k < 16) × (slice_index line.now (at + k) ≡ 32)) }
{
    u8x16::from_slice(&line[at..])
        .simd_eq(u8x16::splat(b' '))
        .to_bitmask()
}

// The same by single bytes, if no space stands before place `from`.
fn first_space_from(line: &[u8], from: usize) -> usize
    requires within { from ≤ length line.now }
    requires none { (k : ℕ) → k < from → is_space (slice_index line.now k) ≡ false }
    ensures place { result ≡ position_or_len is_space line.now }
    ensures within { result ≤ length line.now }
{
    'byte: for at in from..line.len() {
        if line[at] == b' ' {
            return at;
        }
    }
    line.len()
}

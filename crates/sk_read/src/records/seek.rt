// The first quote, or the first LF, CR or comma, from a place of a text on, sought 16 bytes at a time: most are near.
ghost use Rattle.std.specs.Prelude.{◌≡◌, ◌↔◌, ℕ, ◌+◌, ◌<◌, ◌≤◌, length, slice_index};
ghost use Rattle.std.specs.Int.{bit_at};
ghost use Rattle.sk_read.specs.Delimiters.{IsDelimiter, IsFirst, IsQuote};

use crate::records::delimiters::{last_delimiter, lowest_mark};
use std::simd::prelude::*;

// How many bytes are looked at together.
const WIDE: usize = 16;

// The place of the first quote from a place on, or the end of the text.
#[inline(always)]
pub(crate) fn seek_quote(text: &[u8], from: usize) -> usize
    requires { from ≤ length text.now }
    ensures { IsFirst IsQuote text.now from result }
{
    let mut at = from;
    'wide: while text.len() - at >= WIDE {
        let marks = wide_marks(text, at, b'"');
        if marks != 0 {
            return at + lowest_mark(marks);
        }
        at += WIDE;
    }
    last_quote(text, at)
}

// The place of the first LF, CR or comma from a place on, or the end of the text.
#[inline(always)]
pub(crate) fn seek_delimiter(text: &[u8], from: usize) -> usize
    requires { from ≤ length text.now }
    ensures { IsFirst IsDelimiter text.now from result }
{
    let mut at = from;
    'wide: while text.len() - at >= WIDE {
        let marks = wide_delimiters(text, at);
        if marks != 0 {
            return at + lowest_mark(marks);
        }
        at += WIDE;
    }
    last_delimiter(text, at)
}

// The same as `seek_quote`, byte by byte.
fn last_quote(text: &[u8], from: usize) -> usize
    requires { from ≤ length text.now }
    ensures { IsFirst IsQuote text.now from result }
{
    let mut at = from;
    'byte: while at < text.len() && text[at] != b'"' {
        at += 1;
    }
    at
}

// Bit k says whether the byte at place `at + k` is LF, CR or a comma.
#[inline(always)]
fn wide_delimiters(bytes: &[u8], at: usize) -> u64
    requires { at + 16 ≤ length bytes.now }
    ensures { (k : ℕ) → (bit_at result k ≡ 1) ↔ ((k < 16) × IsDelimiter (slice_index bytes.now (at + k))) }
{
    let ends = wide_marks(bytes, at, b'\n') | wide_marks(bytes, at, b'\r');
    ends | wide_marks(bytes, at, b',')
}

// Bit k says whether the byte at place `at + k` is this one.
#[inline(always)]
fn wide_marks(bytes: &[u8], at: usize, byte: u8) -> u64
    requires within { at + 16 ≤ length bytes.now }
    requires some { 0 < byte }
    ensures { (k : ℕ) → (bit_at result k ≡ 1) ↔ ((k < 16) × (slice_index bytes.now (at + k) ≡ byte)) }
{
    u8x16::from_slice(&bytes[at..])
        .simd_eq(u8x16::splat(byte))
        .to_bitmask()
}

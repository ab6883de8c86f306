// Numbers out of the bytes before a place, 16 at a time: no loop, and whatever stands before the number.
ghost use Rattle.std.specs.Prelude.{◌≡◌, ℕ, ◌+◌, ◌<◌, ◌≤◌, length, slice_index, nat_le};
ghost use Rattle.std.specs.List.{list_all, slice_range};
ghost use Rattle.sk_model.specs.Numbers.{number_of};
ghost use Rattle.sk_read.specs.Wide.{EndIn, pairs, joined, spelled};

use sk_lines::{decimal_len, read_number};
use std::simd::prelude::*;

// How many bytes are read together.
const WIDE: usize = 16;

// From place n on it has 16 masks, of which the last n keep a byte and the others clear it.
const MASKS: [u8; 2 * WIDE] = [
    0, 0, 0, 0, 0, 0, 0, 0, 0, 0, 0, 0, 0, 0, 0, 0, 255, 255, 255, 255, 255, 255, 255, 255, 255,
    255, 255, 255, 255, 255, 255, 255,
];

// Any 19 digits spell a number of 64 bits.
const MOST_DIGITS: usize = 19;

// What a 1 before 16 digits counts.
const WEIGHT: u64 = 10_000_000_000_000_000;

/// The number below `below` that the bytes of a text from one place up to another spell, as
/// `read_number` reads it.
#[inline(always)]
pub fn read_number_at(text: &[u8], from: usize, to: usize, below: u64) -> Option<u64>
    requires order { from ≤ to }
    requires within { to ≤ length text.now }
    requires end { 1 ≤ below }
    ensures { result ≡ number_of below (slice_range text.now from to) }
{
    let len = to - from;
    if len == 0 || len > decimal_len(below - 1) {
        return None;
    }
    if to < 2 * WIDE || len > MOST_DIGITS {
        return read_number(&text[from..to], below);
    }
    let value = digits_at(text, from, to)?;
    if value < below { Some(value) } else { None }
}

// The number that 1 to 19 digits spell.
#[inline(always)]
fn digits_at(text: &[u8], from: usize, to: usize) -> Option<u64>
    requires some { from < to }
    requires few { to ≤ from + 19 }
    requires room { 32 ≤ to }
    requires within { to ≤ length text.now }
    ensures { result ≡ spelled (slice_range text.now from to) }
{
    if to - from <= WIDE {
        few_digits_at(text, from, to)
    } else {
        many_digits_at(text, from, to)
    }
}

// The number that 1 to 16 digits spell.
#[inline(always)]
fn few_digits_at(text: &[u8], from: usize, to: usize) -> Option<u64>
    requires some { from < to }
    requires few { to ≤ from + 16 }
    requires room { 16 ≤ to }
    requires within { to ≤ length text.now }
    ensures { result ≡ spelled (slice_range text.now from to) }
{
    let lanes = lanes_before(text, from, to);
    if !are_digits(lanes) {
        return None;
    }
    Some(value_of_lanes(lanes))
}

// The number that 17 to 19 digits spell: the last 16, and those before them.
#[inline(always)]
fn many_digits_at(text: &[u8], from: usize, to: usize) -> Option<u64>
    requires many { from + 16 < to }
    requires few { to ≤ from + 19 }
    requires room { 32 ≤ to }
    requires within { to ≤ length text.now }
    ensures { result ≡ spelled (slice_range text.now from to) }
{
    let middle = to - WIDE;
    let high = lanes_before(text, from, middle);
    let low = lanes_before(text, middle, to);
    if !are_digits(high.simd_max(low)) {
        return None;
    }
    Some(value_of_last_lanes(high) * WEIGHT + value_of_lanes(low))
}

// The bytes of a short line, each less the digit 0, after lanes of 0. Whatever stands before the line goes.
#[inline(always)]
fn lanes_before(text: &[u8], from: usize, to: usize) -> u8x16
    requires some { from < to }
    requires few { to ≤ from + 16 }
    requires room { 16 ≤ to }
    requires within { to ≤ length text.now }
    ensures { EndIn result text.now from to }
{
    let block = u8x16::from_slice(&text[to - WIDE..]) - u8x16::splat(b'0');
    block & u8x16::from_slice(&MASKS[to - from..])
}

// Whether no lane is above 9.
#[inline(always)]
fn are_digits(lanes: u8x16) -> bool
    ensures { result ≡ list_all (λ digit. nat_le digit 9) lanes }
{
    lanes.saturating_sub(u8x16::splat(9)).reduce_or() == 0
}

// The number that 16 digits spell: by twos, by fours, and then all.
#[inline(always)]
fn value_of_lanes(lanes: u8x16) -> u64
    requires { (k : ℕ) → slice_index lanes k < 10 }
    ensures { result ≡ joined 10 lanes }
{
    let [a, b, c, d] = fours(twos(lanes)).to_array();
    (u64::from(a) * 10_000 + u64::from(b)) * 100_000_000 + (u64::from(c) * 10_000 + u64::from(d))
}

// The number that 16 digits spell of which the first 13 are 0.
#[inline(always)]
fn value_of_last_lanes(lanes: u8x16) -> u64
    requires digits { (k : ℕ) → slice_index lanes k < 10 }
    requires few { (k : ℕ) → k < 13 → slice_index lanes k ≡ 0 }
    ensures { result ≡ joined 10 lanes }
{
    let [_, _, _, last] = fours(twos(lanes)).to_array();
    u64::from(last)
}

// The numbers that each two of 16 digits spell.
#[inline(always)]
fn twos(lanes: u8x16) -> u16x8
    requires { (k : ℕ) → slice_index lanes k < 10 }
    ensures value { result ≡ pairs 10 lanes }
    ensures small { (k : ℕ) → slice_index result k < 100 }
{
    u16x8::from_le_bytes(lanes) * u16x8::splat(10 * 0x100 + 1) >> u16x8::splat(8)
}

// The numbers that each two of eight numbers of two digits make.
#[inline(always)]
fn fours(twos: u16x8) -> u32x4
    requires { (k : ℕ) → slice_index twos k < 100 }
    ensures value { result ≡ pairs 100 twos }
    ensures small { (k : ℕ) → slice_index result k < 10_000 }
{
    u32x4::from_le_bytes(twos.to_le_bytes()) * u32x4::splat(100 * 0x1_0000 + 1) >> u32x4::splat(16)
}

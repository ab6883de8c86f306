//! The walk along a table to an entry or an empty place, several places together.
ghost use Rattle.std.specs.Prelude.{◌≡◌, ◌≢◌, ◌⊎◌, ◌+◌, ◌^◌, ◌<◌, ◌≤◌, ℕ, length, slice_index, Contains, not, ◌==◌, true};
ghost use Rattle.std.specs.Int.{IsPowerOfTwo};
ghost use Rattle.std.specs.List.{prefix_len};
ghost use Rattle.std.specs.Simd.Lanes.{chunk};
ghost use Rattle.sk_heap.specs.Table.{IsFirstFrom, HasNone};

use crate::table::place;
use std::simd::prelude::*;

// How many places are looked at together.
pub const WIDE: usize = 8;

// How many are looked at first, since nearly all ways are shorter.
pub const FEW: usize = 4;

// How many of eight places from one on come before the first that has a number.
#[inline(always)]
fn count_before(table: &[u64], at: usize, number: u64) -> u32
    requires { at + 8 ≤ length table.now }
    ensures { result ≡ prefix_len (λ x. not (x == number)) (chunk at 8 table.now) }
{
    let hits = u64x8::from_slice(&table[at..])
        .simd_eq(u64x8::splat(number))
        .to_bitmask();
    if hits == 0 { 8 } else { hits.trailing_zeros() }
}

// How far the first place that has a number is from one on, of the eight that are looked at together. If none
// of them has it, 8.
#[inline(always)]
pub fn steps_near(table: &[u64], at: usize, number: u64) -> usize
    requires { at + 8 ≤ length table.now }
    ensures within { result ≤ 8 }
    ensures passed { HasNone number table.now at (at + result) }
    ensures stops { result < 8 → slice_index table.now (at + result) ≡ number }
{
    count_before(table, at, number) as usize
}

// The same of four places, which mostly lie in one line of the cache.
#[inline(always)]
fn count_before_4(table: &[u64], at: usize, number: u64) -> u32
    requires { at + 4 ≤ length table.now }
    ensures { result ≡ prefix_len (λ x. not (x == number)) (chunk at 4 table.now) }
{
    let hits = u64x4::from_slice(&table[at..])
        .simd_eq(u64x4::splat(number))
        .to_bitmask();
    if hits == 0 { 4 } else { hits.trailing_zeros() }
}

// How far the first place that has a number is from one on, of four. If none of them has it, 4.
#[inline(always)]
pub fn steps_next(table: &[u64], at: usize, number: u64) -> usize
    requires { at + 4 ≤ length table.now }
    ensures within { result ≤ 4 }
    ensures passed { HasNone number table.now at (at + result) }
    ensures stops { result < 4 → slice_index table.now (at + result) ≡ number }
{
    count_before_4(table, at, number) as usize
}

// Whether none of eight places from one on has a number.
#[inline(always)]
fn has_none(table: &[u64], at: usize, number: u64) -> bool
    requires { at + 8 ≤ length table.now }
    ensures { result ≡ true → HasNone number table.now at (at + 8) }
{
    u64x8::from_slice(&table[at..])
        .simd_eq(u64x8::splat(number))
        .to_bitmask()
        == 0
}

// Passes over whole blocks in which no place is empty or has an entry.
fn pass_blocks(table: &[u64], from: usize, entry: u64) -> usize
    requires within { from ≤ length table.now }
    ensures within { result ≤ length table.now }
    ensures order { from ≤ result }
    ensures full { HasNone 0 table.now from result }
    ensures other { HasNone entry table.now from result }
{
    let mut at = from;
    'block: while table.len() - at >= WIDE {
        if !(has_none(table, at, 0) & has_none(table, at, entry)) {
            return at;
        }
        at += WIDE;
    }
    at
}

// The first place from one on that is empty or has an entry, or the length if there is none.
fn seek(table: &[u64], from: usize, entry: u64) -> usize
    requires within { from ≤ length table.now }
    ensures within { result ≤ length table.now }
    ensures order { from ≤ result }
    ensures full { HasNone 0 table.now from result }
    ensures other { HasNone entry table.now from result }
    ensures stops { result < length table.now → (slice_index table.now result ≡ 0) ⊎ (slice_index table.now result ≡ entry) }
{
    'place: for at in pass_blocks(table, from, entry)..table.len() {
        if table[at] == 0 || table[at] == entry {
            return at;
        }
    }
    table.len()
}

// The same from the place of a number on, going round.
pub fn seek_round(table: &[u64], number: u64, entry: u64) -> usize
    requires power { IsPowerOfTwo (length table.now) }
    requires room { Contains table.now 0 }
    ensures { IsFirstFrom entry table.now number result }
{
    let at = seek(table, place(number, table.len()), entry);
    if at < table.len() {
        return at;
    }
    seek(table, 0, entry)
}

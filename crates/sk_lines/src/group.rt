// The next lines of a text, many together.
ghost use Rattle.std.specs.Prelude.{◌≡◌, ◌≢◌, ◌⊎◌, ◌+◌, ◌*◌, ◌^◌, ◌<◌, ◌≤◌, ℕ, length, take, set, slice_index, IfSome, true};
ghost use Rattle.sk_lines.specs.Spans.{AreLines, IsLongLine};
ghost use Rattle.sk_lines.specs.Even.{IsPlain, AreFourPlain, ArePlainBetween, AreFloors, IsLowered};

use crate::marks::{BLOCK, LF, lfs_of_block};
use crate::spans::{GROUP, Span, cut_lines, find_ends};
use std::simd::prelude::*;

// How many bytes of a line are looked at together.
const WIDE: usize = 16;

// Lines that have more bytes are not foreseen.
const LONGEST: usize = 63;

// How many lines are cut together.
const TOGETHER: usize = 4;

// If fewer lines are as long as the first, the ends of all are sought: a group of few lines costs more.
const FEWEST: usize = 32;

// No byte from this on is LF or CR.
const PLAIN: u8 = 14;

// From place n on it has 16 floors: LF and CR are below the first 16 - n, and no byte is below the others.
const FLOORS: [u8; 2 * WIDE] = [
    14, 14, 14, 14, 14, 14, 14, 14, 14, 14, 14, 14, 14, 14, 14, 14, 0, 0, 0, 0, 0, 0, 0, 0, 0, 0,
    0, 0, 0, 0, 0, 0,
];

/// Writes to the start of `spans` where the next lines lie, at most `most` of at most `limit` bytes each, and
/// returns how many they are, and the place after them. They may be fewer than there are.
pub fn cut_group(
    bytes: &[u8],
    from: usize,
    limit: usize,
    most: usize,
    spans: &mut [Span; GROUP],
) -> (usize, usize)
    requires padded { BLOCK ≤ length bytes.now }
    requires within { from ≤ length bytes.now }
    ensures few { result.0 ≤ GROUP }
    ensures most { result.0 ≤ most }
    ensures lines { AreLines bytes.now limit from (take result.0 spans.new) result.1 }
    ensures none { result.0 ≡ 0 → 0 < most → IsLongLine bytes.now limit result.1
        ⊎ ((i : ℕ) → from ≤ i → i + BLOCK < length bytes.now → slice_index bytes.now i ≢ 10) }
{
    if let Some(len) = even_len(bytes, from, limit) {
        let (count, at) = cut_even_lines(bytes, from, limit, len, most, spans);
        if count >= FEWEST {
            return (count, at);
        }
    }
    let found = find_ends(bytes, from, spans).min(most);
    cut_lines(bytes, from, limit, spans, found)
}

// How many bytes the first line has, if they are few and the next lines may have as many: one of them ends where it
// should.
fn even_len(bytes: &[u8], from: usize, limit: usize) -> Option<usize>
    requires padded { BLOCK ≤ length bytes.now }
    ensures few { IfSome result (λ len. len ≤ 63) }
    ensures short { IfSome result (λ len. len ≤ limit) }
{
    if from >= bytes.len() - BLOCK {
        return None;
    }
    let len = lfs_of_block(bytes, from).trailing_zeros() as usize;
    if len > LONGEST || len > limit {
        return None;
    }
    let after = from + FEWEST * (len + 1);
    if after <= bytes.len() - BLOCK && bytes[after - 1] == LF {
        Some(len)
    } else {
        None
    }
}

// Cuts lines of this length, until one has another: no end is sought, as it has to be there.
fn cut_even_lines(
    bytes: &[u8],
    from: usize,
    limit: usize,
    len: usize,
    most: usize,
    spans: &mut [Span; GROUP],
) -> (usize, usize)
    requires padded { BLOCK ≤ length bytes.now }
    requires within { from ≤ length bytes.now }
    requires few { len ≤ 63 }
    requires short { len ≤ limit }
    ensures few { result.0 ≤ GROUP }
    ensures most { result.0 ≤ most }
    ensures within { result.1 ≤ length bytes.now }
    ensures lines { AreLines bytes.now limit from (take result.0 spans.new) result.1 }
{
    let floors = floors_of(len);
    let room = most.min(GROUP);
    let (mut count, mut at) = cut_fours(bytes, from, len, room, spans);
    'line: while count < room && is_plain_line(bytes, at, len, floors) {
        at = put_line(spans, count, at, len);
        count += 1;
    }
    (count, at)
}

// The same while four more have that length: they are looked at together.
#[inline(always)]
fn cut_fours(
    bytes: &[u8],
    from: usize,
    len: usize,
    room: usize,
    spans: &mut [Span; GROUP],
) -> (usize, usize)
    requires padded { BLOCK ≤ length bytes.now }
    requires within { from ≤ length bytes.now }
    requires room { room ≤ GROUP }
    requires few { len ≤ 63 }
    ensures few { result.0 ≤ room }
    ensures within { result.1 ≤ length bytes.now }
    ensures lines { (limit : ℕ) → len ≤ limit → AreLines bytes.now limit from (take result.0 spans.new) result.1 }
{
    let floors = floors_of(len);
    let mut count = 0;
    let mut at = from;
    'four: while count + TOGETHER <= room && are_plain_lines(bytes, at, len, floors) {
        at = put_line(spans, count, at, len);
        at = put_line(spans, count + 1, at, len);
        at = put_line(spans, count + 2, at, len);
        at = put_line(spans, count + 3, at, len);
        count += TOGETHER;
    }
    (count, at)
}

// Writes where a line lies, and returns the place after it.
#[inline(always)]
fn put_line(spans: &mut [Span; GROUP], count: usize, at: usize, len: usize) -> usize
    requires room { count < GROUP }
    requires fits { at + len + BLOCK < 2 ^ 64 }
    ensures span { spans.new ≡ set spans.old count (record { from = at; to = at + len }) }
    ensures after { result ≡ at + (len + 1) }
{
    spans[count] = Span {
        from: at,
        to: at + len,
    };
    at + (len + 1)
}

// Whether as many bytes, and no more, are each of the next four lines, and a whole block comes after them.
#[inline(always)]
fn are_plain_lines(bytes: &[u8], at: usize, len: usize, floors: u8x16) -> bool
    requires padded { BLOCK ≤ length bytes.now }
    requires within { at ≤ length bytes.now }
    requires few { len ≤ 63 }
    requires floors { AreFloors len floors }
    ensures within { result ≡ true → at + 4 * (len + 1) + BLOCK ≤ length bytes.now }
    ensures plain { result ≡ true → AreFourPlain bytes.now at len }
{
    let second = at + (len + 1);
    let third = second + (len + 1);
    let fourth = third + (len + 1);
    if fourth + len >= bytes.len() - BLOCK {
        return false;
    }
    if bytes[at + len] != LF
        || bytes[second + len] != LF
        || bytes[third + len] != LF
        || bytes[fourth + len] != LF
    {
        return false;
    }
    let least = lowered(u8x16::from_slice(&bytes[at..]), bytes, second);
    let least = lowered(lowered(least, bytes, third), bytes, fourth);
    if least.simd_lt(floors).to_bitmask() != 0 {
        return false;
    }
    are_plain_between(bytes, at, len)
}

// Whether no byte of four lines of this length after the first 16 of each is LF or CR.
#[inline(always)]
fn are_plain_between(bytes: &[u8], at: usize, len: usize) -> bool
    requires few { len ≤ 63 }
    requires within { at + 4 * (len + 1) + BLOCK ≤ length bytes.now }
    ensures { result ≡ true → ArePlainBetween bytes.now at len 16 len }
{
    let mut done = WIDE;
    'block: while done < len {
        let place = done.min(len - WIDE);
        if !are_plain_blocks(bytes, at, len, place) {
            return false;
        }
        done += WIDE;
    }
    true
}

// Whether none of 16 bytes from a place on in each of four lines is LF or CR.
#[inline(always)]
fn are_plain_blocks(bytes: &[u8], at: usize, len: usize, place: usize) -> bool
    requires few { len ≤ 63 }
    requires inside { place + 16 ≤ len }
    requires within { at + 4 * (len + 1) + BLOCK ≤ length bytes.now }
    ensures { result ≡ true → ArePlainBetween bytes.now at len place (place + 16) }
{
    let second = at + (len + 1);
    let third = second + (len + 1);
    let fourth = third + (len + 1);
    let least = lowered(
        u8x16::from_slice(&bytes[at + place..]),
        bytes,
        second + place,
    );
    let least = lowered(lowered(least, bytes, third + place), bytes, fourth + place);
    least.simd_lt(u8x16::splat(PLAIN)).to_bitmask() == 0
}

// The lesser of each lane and the byte of a block.
#[inline(always)]
fn lowered(lanes: u8x16, bytes: &[u8], at: usize) -> u8x16
    requires { at + 16 ≤ length bytes.now }
    ensures { IsLowered result lanes bytes.now at }
{
    lanes.simd_min(u8x16::from_slice(&bytes[at..]))
}

// The floors of the first bytes of a line.
#[inline(always)]
fn floors_of(len: usize) -> u8x16
    ensures { AreFloors len result }
{
    u8x16::from_slice(&FLOORS[WIDE.saturating_sub(len)..])
}

// Whether as many bytes are a line, and a whole block comes after it. A byte below the floor may be no line end all
// the same.
#[inline(always)]
fn is_plain_line(bytes: &[u8], at: usize, len: usize, floors: u8x16) -> bool
    requires padded { BLOCK ≤ length bytes.now }
    requires within { at ≤ length bytes.now }
    requires few { len ≤ 63 }
    requires floors { AreFloors len floors }
    ensures within { result ≡ true → at + len + BLOCK < length bytes.now }
    ensures plain { result ≡ true → IsPlain bytes.now at len }
{
    let end = at + len;
    if end >= bytes.len() - BLOCK || bytes[end] != LF {
        return false;
    }
    let below = u8x16::from_slice(&bytes[at..]).simd_lt(floors).to_bitmask();
    if below != 0 {
        return false;
    }
    are_plain(bytes, at + WIDE, end)
}

// Whether no byte from one place up to another is LF or CR: by blocks, of which the last may lie over the one before.
#[inline(always)]
fn are_plain(bytes: &[u8], from: usize, end: usize) -> bool
    requires room { 16 ≤ from }
    requires within { end + BLOCK ≤ length bytes.now }
    ensures { result ≡ true → (i : ℕ) → from ≤ i → i < end → 14 ≤ slice_index bytes.now i }
{
    let mut at = from;
    'block: while at < end {
        let place = at.min(end - WIDE);
        if !is_plain_block(bytes, place) {
            return false;
        }
        at += WIDE;
    }
    true
}

// Whether none of 16 bytes is LF or CR.
#[inline(always)]
fn is_plain_block(bytes: &[u8], at: usize) -> bool
    requires { at + 16 ≤ length bytes.now }
    ensures { result ≡ true → (i : ℕ) → at ≤ i → i < at + 16 → 14 ≤ slice_index bytes.now i }
{
    u8x16::from_slice(&bytes[at..])
        .simd_lt(u8x16::splat(PLAIN))
        .to_bitmask()
        == 0
}

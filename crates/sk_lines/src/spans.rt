// Many lines together, by the places where they lie.
ghost use Rattle.std.specs.Prelude.{◌≡◌, ◌≢◌, ◌+◌, ◌<◌, ◌≤◌, ℕ, List, length, take, slice_index};
ghost use Rattle.sk_lines.specs.Marks.{KnowsLfs};
ghost use Rattle.sk_lines.specs.Spans.{HoldsEnds, AreEnds, AreLines, IsLongLine, ends_of};

use crate::cutter::line_len;
use crate::marks::{BLOCK, lfs_of_block, lowest_mark, without_mark};

/// How many lines are given together at most.
pub const GROUP: usize = 128;

/// Where a line lies in a text: from one byte, counted from 0, up to, not including, another.
#[derive(Clone, Copy, Debug, PartialEq, Eq)]
pub struct Span {
    pub from: usize,
    pub to: usize,
}

impl Span {
    /// No byte.
    pub const EMPTY: Span = Span { from: 0, to: 0 };
}

/// Finds the LFs from a place on, in order, until there is no room for those of one block more, or no
/// block is left. It writes their places to the start of `spans`, as ends, and returns how many they are.
pub fn find_ends(bytes: &[u8], from: usize, spans: &mut [Span; GROUP]) -> usize
    requires padded { BLOCK ≤ length bytes.now }
    ensures few { result ≤ GROUP }
    ensures ends { AreEnds bytes.now from (ends_of result spans.new) }
    ensures none { result ≡ 0 → (i : ℕ) → from ≤ i → i + BLOCK < length bytes.now → slice_index bytes.now i ≢ 10 }
{
    let mut count = 0;
    let mut scanned = from;
    'block: while scanned < bytes.len() - BLOCK && count <= GROUP - BLOCK {
        let marks = lfs_of_block(bytes, scanned);
        scanned += BLOCK;
        if marks != 0 {
            count = put_ends(spans, count, scanned, marks);
        }
    }
    count
}

// Notes the LFs of the block before `scanned` after the first `count`: four of them without a branch, as
// most blocks of short lines have no more.
#[inline(always)]
fn put_ends(spans: &mut [Span; GROUP], count: usize, scanned: usize, marks: u64) -> usize
    requires room { count + BLOCK ≤ GROUP }
    requires block { BLOCK ≤ scanned }
    ensures few { result ≤ GROUP }
    ensures holds { (bytes : List ℕ) (from : ℕ) → HoldsEnds bytes from (ends_of count spans.old) scanned marks
        → AreEnds bytes from (ends_of result spans.new) × (result < GROUP → HoldsEnds bytes from (ends_of result spans.new) scanned 0) }
{
    let (count, marks) = put_end(spans, count, scanned, marks);
    let (count, marks) = put_end(spans, count, scanned, marks);
    let (count, marks) = put_end(spans, count, scanned, marks);
    let (count, marks) = put_end(spans, count, scanned, marks);
    if marks == 0 {
        return count;
    }
    put_other_ends(spans, count, scanned, marks)
}

// The same, one after another.
fn put_other_ends(spans: &mut [Span; GROUP], count: usize, scanned: usize, marks: u64) -> usize
    requires few { count ≤ GROUP }
    requires block { BLOCK ≤ scanned }
    ensures few { result ≤ GROUP }
    ensures holds { (bytes : List ℕ) (from : ℕ) → HoldsEnds bytes from (ends_of count spans.old) scanned marks
        → AreEnds bytes from (ends_of result spans.new) × (result < GROUP → HoldsEnds bytes from (ends_of result spans.new) scanned 0) }
{
    let mut count = count;
    let mut marks = marks;
    'mark: while marks != 0 && count < GROUP {
        (count, marks) = put_end(spans, count, scanned, marks);
    }
    count
}

// Notes the first marked LF, if there is one, after the first `count`, and returns how many there are then,
// and the other marks.
#[inline(always)]
fn put_end(spans: &mut [Span; GROUP], count: usize, scanned: usize, marks: u64) -> (usize, u64)
    requires room { count < GROUP }
    requires block { BLOCK ≤ scanned }
    ensures none { marks ≡ 0 → (result.0 ≡ count) × (result.1 ≡ 0) }
    ensures one { marks ≢ 0 → result.0 ≡ count + 1 }
    ensures holds { (bytes : List ℕ) (from : ℕ) → HoldsEnds bytes from (ends_of count spans.old) scanned marks
        → HoldsEnds bytes from (ends_of result.0 spans.new) scanned result.1 }
{
    let mark = lowest_mark(marks);
    spans[count].to = scanned - BLOCK + mark;
    (count + one_if_any(marks), without_mark(marks, mark))
}

#[inline(always)]
fn one_if_any(marks: u64) -> usize
    ensures none { marks ≡ 0 → result ≡ 0 }
    ensures any { marks ≢ 0 → result ≡ 1 }
{
    usize::from(marks != 0)
}

/// Makes lines of the first `count` ends, which `find_ends` wrote, until one has more than `limit` bytes, and
/// returns how many they are, and the place after them.
pub fn cut_lines(
    bytes: &[u8],
    from: usize,
    limit: usize,
    spans: &mut [Span; GROUP],
    count: usize,
) -> (usize, usize)
    requires few { count ≤ GROUP }
    requires ends { AreEnds bytes.now from (ends_of count spans.old) }
    requires within { from ≤ length bytes.now }
    ensures few { result.0 ≤ count }
    ensures within { result.1 ≤ length bytes.now }
    ensures lines { AreLines bytes.now limit from (take result.0 spans.new) result.1 }
    ensures long { result.0 < count → IsLongLine bytes.now limit result.1 }
{
    let mut at = from;
    'line: for i in 0..count {
        let end = spans[i].to;
        let len = line_len(bytes, at, end);
        if len > limit {
            return (i, at);
        }
        spans[i] = Span {
            from: at,
            to: at + len,
        };
        at = end + 1;
    }
    (count, at)
}

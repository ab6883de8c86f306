// Whole lines, passed over without a look at each.
ghost use Rattle.std.specs.Prelude.{◌≡◌, ◌≢◌, ℕ, ◌+◌, ◌*◌, ◌<◌, ◌≤◌, length, slice_index, slice_range, true, false, IfSome, IfNone};
ghost use Rattle.sk_lines.specs.Runs.{IsRun, AreEven, EndEach};

use crate::marks::{BLOCK, LF, lfs_of_block};

/// Passes over at most `most` LFs from a place on, and returns how many they are, and the place after the last.
pub fn skip_lfs(bytes: &[u8], from: usize, most: usize) -> (usize, usize)
    requires within { from + BLOCK ≤ length bytes.now }
    requires zeros { (i : ℕ) → length bytes.now ≤ i + 64 → slice_index bytes.now i ≡ 0 }
    ensures few { result.0 ≤ most }
    ensures place { (from ≤ result.1) × (result.1 + 64 ≤ length bytes.now) }
    ensures run { IsRun result.0 (slice_range bytes.now from result.1) }
    ensures all { result.0 < most → (i : ℕ) → result.1 ≤ i → i + 64 < length bytes.now → slice_index bytes.now i ≢ 10 }
{
    let passed = skip_blocks(bytes, from, most);
    skip_bytes(bytes, from, most, passed)
}

// LFs that were passed over.
#[derive(Clone, Copy)]
struct Passed {
    count: usize,
    // the place after the last
    at: usize,
    // no other lies before this place
    scanned: usize,
}

// Passes over blocks while their LFs are not too many.
fn skip_blocks(bytes: &[u8], from: usize, most: usize) -> Passed
    requires within { from + BLOCK ≤ length bytes.now }
    requires zeros { (i : ℕ) → length bytes.now ≤ i + 64 → slice_index bytes.now i ≡ 0 }
    ensures few { result.count ≤ most }
    ensures place { (from ≤ result.at) × (result.at ≤ result.scanned) × (result.at + 64 ≤ length bytes.now) × (result.scanned ≤ length bytes.now) }
    ensures run { IsRun result.count (slice_range bytes.now from result.at) }
    ensures none { (i : ℕ) → result.at ≤ i → i < result.scanned → slice_index bytes.now i ≢ 10 }
{
    let mut passed = Passed {
        count: 0,
        at: from,
        scanned: from,
    };
    'block: while passed.scanned < bytes.len() - BLOCK {
        let marks = lfs_of_block(bytes, passed.scanned);
        let found = marks.count_ones() as usize;
        if found > most - passed.count {
            return passed;
        }
        passed.scanned += BLOCK;
        if marks != 0 {
            passed.count += found;
            passed.at = passed.scanned - marks.leading_zeros() as usize;
        }
    }
    passed
}

// Continues byte by byte.
fn skip_bytes(bytes: &[u8], from: usize, most: usize, passed: Passed) -> (usize, usize)
    requires few { passed.count ≤ most }
    requires place { (from ≤ passed.at) × (passed.at ≤ passed.scanned) × (passed.at + 64 ≤ length bytes.now) × (passed.scanned ≤ length bytes.now) }
    requires run { IsRun passed.count (slice_range bytes.now from passed.at) }
    requires none { (i : ℕ) → passed.at ≤ i → i < passed.scanned → slice_index bytes.now i ≢ 10 }
    ensures few { result.0 ≤ most }
    ensures place { (from ≤ result.1) × (result.1 + 64 ≤ length bytes.now) }
    ensures run { IsRun result.0 (slice_range bytes.now from result.1) }
    ensures all { result.0 < most → (i : ℕ) → result.1 ≤ i → i + 64 < length bytes.now → slice_index bytes.now i ≢ 10 }
{
    let mut count = passed.count;
    let mut at = passed.at;
    let mut scanned = passed.scanned;
    'byte: while count < most && scanned < bytes.len() - BLOCK {
        let byte = bytes[scanned];
        scanned += 1;
        if byte == LF {
            count += 1;
            at = scanned;
        }
    }
    (count, at)
}

/// How many bytes each of the lines of a run has before its LF, a CR counted, if all `count` of them have as many.
pub fn even_len(run: &[u8], count: usize) -> Option<usize>
    requires some { 0 < count }
    requires run { IsRun count run.now }
    ensures even { IfSome result (λ len. AreEven count len run.now) }
    ensures none { IfNone result ((len : ℕ) → ¬ AreEven count len run.now) }
{
    let each = run.len() / count;
    if each == 0 || each * count != run.len() {
        return None;
    }
    if end_each(run, count, each - 1) {
        Some(each - 1)
    } else {
        None
    }
}

// Whether LF comes after `len` bytes, and again after as many.
fn end_each(run: &[u8], count: usize, len: usize) -> bool
    requires some { 0 < count }
    requires bytes { length run.now ≡ count * (len + 1) }
    ensures yes { result ≡ true → EndEach count len run.now }
    ensures no { result ≡ false → ¬ EndEach count len run.now }
{
    let each = len + 1;
    'line: for i in 0..count {
        if run[i * each + len] != LF {
            return false;
        }
    }
    true
}

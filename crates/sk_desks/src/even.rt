// Lines of one length, each of a tenant, known by a look at the start and the end of each.
ghost use Rattle.std.specs.Prelude.{◌≡◌, ◌≢◌, ◌↔◌, ℕ, ◌+◌, ◌-◌, ◌*◌, ◌<◌, ◌≤◌, All, length, slice_index, IfSome, true};
ghost use Rattle.std.specs.Int.{bit_at};
ghost use Rattle.sk_model.specs.Lines.{lines_of};
ghost use Rattle.sk_lines.specs.Runs.{IsRun, EndEach};
ghost use Rattle.sk_desks.specs.Entries.{IsNamedAt};
ghost use Rattle.sk_desks.specs.Gathers.{AreFirst, AreUpTo, HaveOneLength, IsOfTenant};

use sk_tenant::{Finder, Names};
use std::simd::prelude::*;

const LF: u8 = b'\n';

// How many bytes of a line are looked at together.
const WIDE: usize = 16;

// Of these the last one, as a bit.
const ONLY_LAST: u64 = 1 << 15;

const HALF: usize = WIDE / 2;

/// The first lines of a text: how many, how many bytes they have with what ended them, and how many each has before its LF.
#[derive(Clone, Copy)]
pub(crate) struct FirstLines {
    pub(crate) count: usize,
    pub(crate) bytes: usize,
    pub(crate) len: usize,
}

impl FirstLines {
    const NONE: FirstLines = FirstLines {
        count: 0,
        bytes: 0,
        len: 0,
    };
}

// How many bytes a line has before its LF, and how many of them are its label.
#[derive(Clone, Copy)]
struct Shape {
    len: usize,
    label: usize,
}

/// The first lines of a text, at most `most`, while they have one length, labels of one length, and are of tenants. That
/// they end where the first one does is seen where it is: no end is sought. Lines of fewer than 16 bytes are not counted.
pub(crate) fn first_of_tenants(names: &Names, text: &[u8], most: usize) -> FirstLines
    ensures few { result.count ≤ most }
    ensures first { AreFirst names.now text.now result.count result.bytes }
    ensures even { HaveOneLength text.now result }
{
    let Some(shape) = first_shape(text) else {
        return FirstLines::NONE;
    };
    let each = shape.len + 1;
    let end = text.len().min(most.saturating_mul(each));
    let last = end.saturating_sub(shape.len);
    let bytes = bytes_of_shape(names, text, last, shape, most);
    FirstLines {
        count: bytes / each,
        bytes,
        len: shape.len,
    }
}

// How many bytes the first lines have that begin before a place, while they have this shape and are of tenants. For names
// of 8 to 16 bytes, which are no more than their two ends, the compiler makes a loop of its own, without a mask.
fn bytes_of_shape(names: &Names, text: &[u8], last: usize, shape: Shape, most: usize) -> usize
    requires label { 0 < shape.label }
    requires item { shape.label + 3 ≤ shape.len }
    requires long { 16 ≤ shape.len }
    requires within { 0 < last → last + shape.len ≤ length text.now }
    requires room { 0 < last → last + shape.len ≤ most * (shape.len + 1) }
    ensures { AreUpTo names.now text.now most shape.len result }
{
    if HALF <= shape.label && shape.label <= WIDE {
        return bytes_of_first(&names.finder(shape.label), text, last, shape, most);
    }
    bytes_of_first(&names.finder(shape.label), text, last, shape, most)
}

// The same by a finder.
#[inline(always)]
fn bytes_of_first(finder: &Finder<'_>, text: &[u8], last: usize, shape: Shape, most: usize) -> usize
    requires finder { finder.now.len ≡ shape.label }
    requires label { 0 < shape.label }
    requires item { shape.label + 3 ≤ shape.len }
    requires long { 16 ≤ shape.len }
    requires within { 0 < last → last + shape.len ≤ length text.now }
    requires room { 0 < last → last + shape.len ≤ most * (shape.len + 1) }
    ensures { AreUpTo finder.now.names text.now most shape.len result }
{
    let mut bytes = 0;
    'line: while bytes < last && is_of_tenant(finder, text, bytes, shape) {
        bytes += shape.len + 1;
    }
    bytes
}

// The shape of the first line, if it has a label, an item of two bytes at least, and 16 bytes.
fn first_shape(text: &[u8]) -> Option<Shape>
    ensures label { IfSome result (λ shape. 0 < shape.label) }
    ensures item { IfSome result (λ shape. shape.label + 3 ≤ shape.len) }
    ensures long { IfSome result (λ shape. 16 ≤ shape.len) }
    ensures within { IfSome result (λ shape. shape.len < length text.now) }
{
    let len = text.iter().position(|byte| *byte == LF)?;
    let label = text[..len].iter().position(|byte| *byte == b' ')?;
    if label == 0 || len < label + 3 || len < WIDE {
        return None;
    }
    Some(Shape { len, label })
}

// Whether a line of this shape stands at a place, and is of a tenant.
#[inline(always)]
fn is_of_tenant(finder: &Finder<'_>, text: &[u8], at: usize, shape: Shape) -> bool
    requires finder { finder.now.len ≡ shape.label }
    requires item { shape.label + 3 ≤ shape.len }
    requires long { 16 ≤ shape.len }
    requires within { at + shape.len < length text.now }
    ensures end { result ≡ true → slice_index text.now (at + shape.len) ≡ 10 }
    ensures plain { result ≡ true → (i : ℕ) → at ≤ i → i < at + shape.len → slice_index text.now i ≢ 10 }
    ensures named { result ≡ true → IsNamedAt finder.now.names text.now at shape.label }
{
    ends_first(text, at, at + shape.len)
        && text[at + shape.label] == b' '
        && finder.place(text, at).is_some()
}

// Whether LF stands at a place, and not before it from another place on: by blocks, of which the last may lie over the one
// before.
#[inline(always)]
fn ends_first(text: &[u8], from: usize, end: usize) -> bool
    requires long { from + 16 ≤ end }
    requires within { end < length text.now }
    ensures end { result ≡ true → slice_index text.now end ≡ 10 }
    ensures plain { result ≡ true → (i : ℕ) → from ≤ i → i < end → slice_index text.now i ≢ 10 }
{
    let last = end + 1 - WIDE;
    if lfs_of(text, from) | (lfs_of(text, last) ^ ONLY_LAST) != 0 {
        return false;
    }
    end - from < 2 * WIDE || are_blocks_without_lf(text, from + WIDE, last)
}

// Whether no byte from one place up to another is LF, 16 bytes after others.
fn are_blocks_without_lf(text: &[u8], from: usize, to: usize) -> bool
    requires room { 16 ≤ from }
    requires within { to ≤ length text.now }
    ensures { result ≡ true → (i : ℕ) → from ≤ i → i < to → slice_index text.now i ≢ 10 }
{
    let mut at = from;
    'block: while at < to {
        if lfs_of(text, at.min(to - WIDE)) != 0 {
            return false;
        }
        at += WIDE;
    }
    true
}

// Which of 16 bytes are LF: a bit each, from the lowest on.
#[inline(always)]
fn lfs_of(text: &[u8], at: usize) -> u64
    requires { at + 16 ≤ length text.now }
    ensures { (i : ℕ) → at ≤ i → i < at + 16 → (bit_at result (i - at) ≡ 1) ↔ (slice_index text.now i ≡ 10) }
{
    u8x16::from_slice(&text[at..])
        .simd_eq(u8x16::splat(LF))
        .to_bitmask()
}

/// Whether the lines of a run have one length, labels of one length, and are all of tenants. If not, each line has to be
/// examined.
pub(crate) fn are_even_of_tenants(names: &Names, run: &[u8], count: usize) -> bool
    requires some { 0 < count }
    requires run { IsRun count run.now }
    ensures { result ≡ true → All (IsOfTenant names.now) (lines_of run.now) }
{
    let each = run.len() / count;
    let Some(label) = run.iter().position(|byte| *byte == b' ') else {
        return false;
    };
    // LF ends each line, and one that CR LF ends has a byte less.
    if label == 0 || each < label + 4 || each * count != run.len() {
        return false;
    }
    are_each_of_tenants(names, run, count, each - 1, label)
}

// Whether LF comes after `len` bytes, and again after as many, and the name of a tenant, of `label` bytes, and a space
// begin each line.
fn are_each_of_tenants(names: &Names, run: &[u8], count: usize, len: usize, label: usize) -> bool
    requires some { 0 < count }
    requires bytes { length run.now ≡ count * (len + 1) }
    requires short { label + 3 ≤ len }
    ensures { result ≡ true → EndEach count len run.now × ((i : ℕ) → i < count → IsNamedAt names.now run.now (i * (len + 1)) label) }
{
    let each = len + 1;
    let finder = names.finder(label);
    let mut at = 0;
    'line: while at < run.len() {
        if run[at + len] != LF || !is_named(&finder, run, at, label) {
            return false;
        }
        at += each;
    }
    true
}

// Whether the name of a tenant, of this many bytes, stands at a place, and a space after it, as far as the finder reaches.
#[inline(always)]
fn is_named(finder: &Finder<'_>, run: &[u8], at: usize, label: usize) -> bool
    requires finder { finder.now.len ≡ label }
    requires within { at + label < length run.now }
    ensures { result ≡ true → IsNamedAt finder.now.names run.now at label }
{
    run[at + label] == b' ' && finder.reaches(run, at) && finder.place(run, at).is_some()
}

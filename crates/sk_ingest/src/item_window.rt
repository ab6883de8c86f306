//! A window of items: what is held of units until they are fed.
ghost use Rattle.std.specs.Prelude.{◌≡◌, ◌<◌, ◌≤◌, ◌+◌, ◌*◌, ◌++◌, ◌∷◌, [], length, slice_range, true, false, IfOk, IfSome};
ghost use Rattle.sk_model.specs.Limits.{line_limit};
ghost use Rattle.sk_model.specs.Lines.{AreWithin};
ghost use Rattle.sk_lines.specs.Spans.{AreBehind, lines_at};
ghost use Rattle.sk_read.specs.Items.{IsGood};
ghost use Rattle.sk_fill.specs.Windows.{most_lines, full_bytes};
ghost use Rattle.sk_ingest.specs.ItemWindows.{held_of, has_filled, HasHeld, HoldsMore};

use sk_lines::{GROUP, Span};
use sk_model::OutOfMemory;
use sk_read::Kind;
use std::alloc::Global;
use std::marker::Model;

// As many bytes of units as this make a window full.
const FULL_BYTES: usize = 67_108_864;

// How many bytes a line has whose hash is of one block.
const ONE_BLOCK: usize = 16;

// Of each unit its item, or 0 of an empty one: an item is from 1 on.
#[derive(Drop)]
pub(crate) struct ItemWindow {
    items: Vec<u64>,
    // how many bytes the units have
    bytes: usize,
    // how many units there may be
    most: u32,
}

impl Model for ItemWindow {
    ghost use Rattle.std.specs.Prelude.{◌≤◌, length, vec_capacity};
    ghost use Rattle.sk_fill.specs.Windows.{most_lines};
    ghost use Rattle.sk_ingest.specs.ItemWindows.{ItemWindowState};

    ghost Value = { ItemWindowState };

    ghost view = { λ w. record { items = w.items.items; bytes = w.bytes; most = w.most } };

    ghost invariant = { λ w. (length w.items.items ≤ w.most) × (w.most ≤ most_lines) × (w.most ≤ vec_capacity w.items) };
}

impl ItemWindow {
    // For at most this many units, with memory for all of them.
    pub(crate) fn new(alloc: Global, most: u32) -> Result<ItemWindow, OutOfMemory>
        requires { most ≤ most_lines }
        ensures items { IfOk result (λ w. w.items ≡ []) }
        ensures bytes { IfOk result (λ w. w.bytes ≡ 0) }
        ensures most { IfOk result (λ w. w.most ≡ most) }
    {
        Ok(ItemWindow {
            items: Vec::with_capacity(alloc, most as usize)?,
            bytes: 0,
            most,
        })
    }

    // Holds a unit of `size` bytes: its item, or 0.
    #[inline(always)]
    pub(crate) fn push(&mut self, item: u64, size: usize)
        requires room { has_filled self.old ≡ false }
        requires short { size ≤ line_limit }
        ensures items { self.new.items ≡ self.old.items ++ item ∷ [] }
        ensures bytes { self.new.bytes ≡ self.old.bytes + size }
        ensures most { self.new.most ≡ self.old.most }
    {
        self.items.push_reserved(item);
        self.bytes += size;
    }

    // Holds lines that lie in a text, if each is empty or an item and they do not fill the window. It returns whether
    // they are held.
    #[inline(always)]
    pub(crate) fn push_all(&mut self, kind: Kind, text: &[u8], spans: &[Span]) -> bool
        requires few { length spans.now ≤ GROUP }
        requires within { AreBehind 0 spans.now text.now }
        requires short { AreWithin line_limit (lines_at spans.now text.now) }
        requires room { has_filled self.old ≡ false }
        ensures held { result ≡ true → HoldsMore kind (lines_at spans.now text.now) self.old self.new }
        ensures refused { result ≡ false → self.new ≡ self.old }
    {
        let mut held = [0; GROUP];
        let front = hold(kind, text, spans, &mut held);
        if front.lines < spans.len() || !self.has_room_for(front) {
            return false;
        }
        self.items.extend_from_slice(&held[..front.lines]).unwrap();
        self.bytes += front.bytes;
        true
    }

    // Whether lines do not fill the window.
    #[inline(always)]
    fn has_room_for(&self, front: Front) -> bool
        requires room { has_filled self.now ≡ false }
        requires few { front.lines ≤ GROUP }
        requires short { front.bytes ≤ line_limit * GROUP }
        ensures few { result ≡ true → length self.now.items + front.lines < self.now.most }
        ensures small { result ≡ true → self.now.bytes + front.bytes < full_bytes }
    {
        self.items.len() + front.lines < self.most as usize && self.bytes + front.bytes < FULL_BYTES
    }

    // Whether it takes no further unit.
    #[inline(always)]
    pub(crate) fn is_full(&self) -> bool
        ensures { result ≡ has_filled self.now }
    {
        self.items.len() == self.most as usize || self.bytes >= FULL_BYTES
    }

    pub(crate) fn items(&self) -> &[u64]
        ensures items { result.now ≡ self.now.items }
        ensures few { length result.now ≤ most_lines }
    {
        &self.items
    }

    // Takes all units out. The memory stays.
    pub(crate) fn clear(&mut self)
        ensures items { self.new.items ≡ [] }
        ensures bytes { self.new.bytes ≡ 0 }
        ensures most { self.new.most ≡ self.old.most }
    {
        self.items.clear();
        self.bytes = 0;
    }
}

// The first of some lines: how many they are, and how many bytes they have.
#[derive(Clone, Copy)]
struct Front {
    lines: usize,
    bytes: usize,
}

impl Front {
    const NOTHING: Front = Front { lines: 0, bytes: 0 };

    // Of lines of one block each.
    fn of_blocks(lines: usize) -> Front
        requires { lines ≤ GROUP }
        ensures lines { result.lines ≡ lines }
        ensures bytes { result.bytes ≡ ONE_BLOCK * lines }
    {
        Front {
            lines,
            bytes: ONE_BLOCK * lines,
        }
    }
}

// Writes what is held of lines to the start of `held`, up to the first line that is neither empty nor an item.
#[inline(always)]
fn hold(kind: Kind, text: &[u8], spans: &[Span], held: &mut [u64; GROUP]) -> Front
    requires few { length spans.now ≤ GROUP }
    requires within { AreBehind 0 spans.now text.now }
    requires short { AreWithin line_limit (lines_at spans.now text.now) }
    ensures { HasHeld kind (lines_at spans.now text.now) held.new result.lines result.bytes }
{
    // Each kind has a loop of its own, so that neither pays for what the other needs.
    match kind {
        Kind::Hash(_) => {
            let first = hold_blocks(kind, text, spans, held);
            hold_rest(kind, text, spans, first, held)
        }
        Kind::Raw => hold_rest(kind, text, spans, Front::NOTHING, held),
    }
}

// The same of the first lines, while they have one block each: a loop over lines of one length has no branch on it.
#[inline(always)]
fn hold_blocks(kind: Kind, text: &[u8], spans: &[Span], held: &mut [u64; GROUP]) -> Front
    requires few { length spans.now ≤ GROUP }
    requires within { AreBehind 0 spans.now text.now }
    ensures { HasHeld kind (lines_at spans.now text.now) held.new result.lines result.bytes }
{
    'line: for at in 0..spans.len() {
        let span = spans[at];
        if span.to - span.from != ONE_BLOCK {
            return Front::of_blocks(at);
        }
        let Some(item) = kind.item_at(text, span) else {
            return Front::of_blocks(at);
        };
        held[at] = item;
    }
    Front::of_blocks(spans.len())
}

// The same of the lines after the first, of which this is held.
#[inline(always)]
fn hold_rest(
    kind: Kind,
    text: &[u8],
    spans: &[Span],
    first: Front,
    held: &mut [u64; GROUP],
) -> Front
    requires few { length spans.now ≤ GROUP }
    requires within { AreBehind 0 spans.now text.now }
    requires short { AreWithin line_limit (lines_at spans.now text.now) }
    requires first { HasHeld kind (lines_at spans.now text.now) held.old first.lines first.bytes }
    ensures { HasHeld kind (lines_at spans.now text.now) held.new result.lines result.bytes }
{
    let mut bytes = first.bytes;
    'line: for at in first.lines..spans.len() {
        let span = spans[at];
        let Some(item) = held_at(kind, text, span) else {
            return Front { lines: at, bytes };
        };
        held[at] = item;
        bytes += span.to - span.from;
    }
    Front {
        lines: spans.len(),
        bytes,
    }
}

// What is held of the line that lies in a text, if it is empty or an item.
#[inline(always)]
fn held_at(kind: Kind, text: &[u8], span: Span) -> Option<u64>
    requires order { span.from ≤ span.to }
    requires within { span.to ≤ length text.now }
    ensures good { IfSome result (λ item. IsGood kind (slice_range text.now span.from span.to)) }
    ensures held { IfSome result (λ item. item ≡ held_of kind (slice_range text.now span.from span.to)) }
{
    if span.from == span.to {
        return Some(0);
    }
    kind.item_at(text, span)
}

//! The items of many lines, of which a hint keeps some.
ghost use Rattle.std.specs.Prelude.{◌≡◌, ◌<◌, ◌≤◌, ℕ, [], length, take, All, slice_index_or};
ghost use Rattle.std.specs.List.{filter};
ghost use Rattle.sk_model.specs.Width.{AreItems};
ghost use Rattle.sk_lines.specs.Spans.{AreBehind, lines_at};
ghost use Rattle.sk_read.specs.Items.{IsGood};
ghost use Rattle.sk_fill.specs.Windows.{items_in, IsBad};
ghost use Rattle.sk_fill.specs.Gathers.{HasGathered};

use crate::window_lines::item_at;
use sk_compose::Composable;
use sk_lines::{GROUP, Span};
use sk_read::Kind;

// How many bytes a line has whose hash is of one block.
const ONE_BLOCK: usize = 16;

/// What was found among lines.
#[derive(Clone, Copy)]
pub struct Gathered {
    /// How many of them come before the first that is neither empty nor an item.
    pub lines: usize,
    /// How many items of these a hint keeps.
    pub items: usize,
}

impl Gathered {
    const NOTHING: Gathered = Gathered { lines: 0, items: 0 };
}

/// Writes the items of lines that a hint keeps to the start of `kept`, up to the first line that is neither empty
/// nor an item. It does not branch on whether an item is kept: a processor would often foretell that wrongly.
#[inline(always)]
pub fn gather<C: Composable>(
    kind: Kind,
    hint: u64,
    text: &[u8],
    spans: &[Span],
    kept: &mut [u64; GROUP],
) -> Gathered
    requires few { length spans.now ≤ GROUP }
    requires within { AreBehind 0 spans.now text.now }
    ensures lines { result.lines ≤ length spans.now }
    ensures items { result.items ≤ result.lines }
    ensures good { All (IsGood kind) (take result.lines (lines_at spans.now text.now)) }
    ensures bad { result.lines < length spans.now → IsBad kind (slice_index_or (lines_at spans.now text.now) result.lines []) }
    ensures kept { take result.items kept.new ≡ filter (C.keeps_of hint) (items_in kind (take result.lines (lines_at spans.now text.now))) }
    ensures below { AreItems (take result.items kept.new) }
{
    // Each kind has a loop of its own, so that neither pays for what the other needs.
    match kind {
        Kind::Hash(_) => {
            let first = gather_blocks::<C>(kind, hint, text, spans, kept);
            gather_rest::<C>(kind, hint, text, spans, first, kept)
        }
        Kind::Raw => gather_rest::<C>(kind, hint, text, spans, Gathered::NOTHING, kept),
    }
}

// The same of the first lines, while they have one block each: a loop over lines of one length has no branch on it,
// and keeps the numbers of the hash in registers.
#[inline(always)]
fn gather_blocks<C: Composable>(
    kind: Kind,
    hint: u64,
    text: &[u8],
    spans: &[Span],
    kept: &mut [u64; GROUP],
) -> Gathered
    requires few { length spans.now ≤ GROUP }
    requires within { AreBehind 0 spans.now text.now }
    ensures { HasGathered (C.keeps_of hint) kind (lines_at spans.now text.now) kept.new result.lines result.items }
{
    let mut count = 0;
    'line: for at in 0..spans.len() {
        let span = spans[at];
        if span.to - span.from != ONE_BLOCK {
            return Gathered {
                lines: at,
                items: count,
            };
        }
        let Some(item) = kind.item_at(text, span) else {
            return Gathered {
                lines: at,
                items: count,
            };
        };
        kept[count] = item;
        count += usize::from(C::keeps(hint, item));
    }
    Gathered {
        lines: spans.len(),
        items: count,
    }
}

// The same of the lines after the first, of which this was found.
#[inline(always)]
fn gather_rest<C: Composable>(
    kind: Kind,
    hint: u64,
    text: &[u8],
    spans: &[Span],
    first: Gathered,
    kept: &mut [u64; GROUP],
) -> Gathered
    requires few { length spans.now ≤ GROUP }
    requires within { AreBehind 0 spans.now text.now }
    requires first { HasGathered (C.keeps_of hint) kind (lines_at spans.now text.now) kept.old first.lines first.items }
    ensures found { HasGathered (C.keeps_of hint) kind (lines_at spans.now text.now) kept.new result.lines result.items }
    ensures bad { result.lines < length spans.now → IsBad kind (slice_index_or (lines_at spans.now text.now) result.lines []) }
    ensures below { AreItems (take result.items kept.new) }
{
    let mut items = first.items;
    'line: for at in first.lines..spans.len() {
        let line = &text[spans[at].from..spans[at].to];
        if !line.is_empty() {
            match kind.item_at(text, spans[at]) {
                Some(item) => {
                    kept[items] = item;
                    items += usize::from(C::keeps(hint, item));
                }
                None => return Gathered { lines: at, items },
            }
        }
    }
    Gathered {
        lines: spans.len(),
        items,
    }
}

/// Writes the items of lines that a hint keeps to the start of `kept`, and returns how many they are. A line that is
/// no item is passed over.
#[inline(always)]
pub fn gather_all<C: Composable>(
    kind: Kind,
    hint: u64,
    text: &[u8],
    spans: &[Span],
    kept: &mut [u64; GROUP],
) -> usize
    requires few { length spans.now ≤ GROUP }
    requires within { AreBehind 0 spans.now text.now }
    ensures few { result ≤ length spans.now }
    ensures kept { take result kept.new ≡ filter (C.keeps_of hint) (items_in kind (lines_at spans.now text.now)) }
{
    let mut count = 0;
    'line: for at in 0..spans.len() {
        if let Some(item) = item_at(kind, text, spans[at]) {
            kept[count] = item;
            count += usize::from(C::keeps(hint, item));
        }
    }
    count
}

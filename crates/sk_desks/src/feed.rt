// Lines of windows, fed to a desk.
ghost use Rattle.std.specs.Prelude.{◌≡◌, ◌<◌, ◌≤◌, ◌+◌, ◌-◌, ℕ, length, map, slice_range, true, false, IfSome};
ghost use Rattle.std.specs.Str.Lines.{strip_carriage_return};
ghost use Rattle.sk_model.specs.Limits.{most_updaters};
ghost use Rattle.sk_model.specs.Lines.{lines_of};
ghost use Rattle.sk_lines.specs.Runs.{IsRun, AreEven};
ghost use Rattle.sk_lines.specs.Spans.{AreBehind, lines_at};
ghost use Rattle.sk_fill.specs.Blocks.{block_of, blocks_of};
ghost use Rattle.sk_fill.specs.Windows.{all_lines};
ghost use Rattle.sk_desks.specs.Entries.{IsLabelledBy};
ghost use Rattle.sk_desks.specs.Feeds.{HasRoom, HasTenants, TakesLines};

use crate::calls::{give_any, give_known, give_like};
use crate::examined::tenant_like;
use sk_fill::{Block, Window};
use sk_lines::{GROUP, Span, even_len, line_len};
use sk_tenant::{Desk, Names};
use std::sync::Wait;

// A finder reads this many bytes at each end of a name.
const NAME_END: usize = 8;

/// Feeds block i of n of each window to a desk, in order. Lines of no tenant are passed over.
pub(crate) fn feed_blocks<R: Wait>(
    rt: &R,
    desk: &mut Desk,
    windows: &[Window],
    i: usize,
    n: usize,
    seed: u32,
)
    requires few { n ≤ most_updaters }
    requires within { i < n }
    requires tenants { HasTenants desk.old }
    requires room { HasRoom (length (all_lines (map (λ w. w.lines) windows.now))) desk.old }
    ensures { TakesLines seed desk.old (blocks_of (map (λ w. w.lines) windows.now) i n) desk.new }
{
    'window: for at in 0..windows.len() {
        feed_block(rt, desk, &windows[at], i, n, seed);
    }
}

// Feeds block i of n of a window to a desk.
fn feed_block<R: Wait>(rt: &R, desk: &mut Desk, window: &Window, i: usize, n: usize, seed: u32)
    requires few { n ≤ most_updaters }
    requires within { i < n }
    requires tenants { HasTenants desk.old }
    requires room { HasRoom (length window.now.lines) desk.old }
    ensures { TakesLines seed desk.old (block_of window.now.lines i n) desk.new }
{
    let block = Block::of(window.len(), i as u32, n as u32);
    if feed_together(rt, desk, window, block.from, block.to, seed) {
        return;
    }
    feed_lines(rt, desk, window, block.from, block.to, seed);
}

// Feeds the lines from one place up to another to a desk, if they lie together and have one length, and returns whether
// it did.
fn feed_together<R: Wait>(
    rt: &R,
    desk: &mut Desk,
    window: &Window,
    from: u32,
    to: u32,
    seed: u32,
) -> bool
    requires order { from ≤ to }
    requires within { to ≤ length window.now.lines }
    requires tenants { HasTenants desk.old }
    requires room { HasRoom (to - from) desk.old }
    ensures took { result ≡ true → TakesLines seed desk.old (slice_range window.now.lines from to) desk.new }
    ensures not { result ≡ false → desk.new ≡ desk.old }
{
    match window.run(from, to) {
        Some(run) if from < to => feed_if_even(rt, desk, run, (to - from) as usize, seed),
        _ => false,
    }
}

// Feeds the lines of a run to a desk if they have one length, and returns whether they have: then none of them has to
// be cut.
fn feed_if_even<R: Wait>(rt: &R, desk: &mut Desk, run: &[u8], count: usize, seed: u32) -> bool
    requires some { 0 < count }
    requires run { IsRun count run.now }
    requires tenants { HasTenants desk.old }
    requires room { HasRoom count desk.old }
    ensures took { result ≡ true → TakesLines seed desk.old (lines_of run.now) desk.new }
    ensures not { result ≡ false → desk.new ≡ desk.old }
{
    match even_len(run, count) {
        Some(len) => {
            feed_even(rt, desk, run, count, len, seed);
            true
        }
        None => false,
    }
}

// Feeds lines of one length to a desk. A line is found by its place, and those after it are first taken to have its lengths.
fn feed_even<R: Wait>(rt: &R, desk: &mut Desk, run: &[u8], count: usize, len: usize, seed: u32)
    requires run { IsRun count run.now }
    requires even { AreEven count len run.now }
    requires tenants { HasTenants desk.old }
    requires room { HasRoom count desk.old }
    ensures { TakesLines seed desk.old (lines_of run.now) desk.new }
{
    let mut fed = 0;
    'line: while fed < count {
        let from = fed * (len + 1);
        let line = line_len(run, from, from + len);
        let to = from + line;
        let label = give_any(rt, desk, run, Span { from, to }, seed);
        let lengths = Lengths { len, line, label };
        fed = feed_alike(rt, desk, run, fed + 1, count, lengths, seed);
    }
}

// How many bytes a line has before its LF, how many without a CR, and how many of them are its label.
#[derive(Clone, Copy)]
struct Lengths {
    len: usize,
    line: usize,
    label: usize,
}

// Feeds lines of one length to a desk, from one of them on, while they have these lengths and are of tenants, and returns
// which one is the next. For names of 8 to 16 bytes, which are no more than their two ends, the compiler makes a loop of its
// own, without a mask.
fn feed_alike<R: Wait>(
    rt: &R,
    desk: &mut Desk,
    run: &[u8],
    from: usize,
    count: usize,
    lengths: Lengths,
    seed: u32,
) -> usize
    requires run { IsRun count run.now }
    requires even { AreEven count lengths.len run.now }
    requires line { lengths.line ≤ lengths.len }
    requires place { (0 < from) × (from ≤ count) }
    requires tenants { HasTenants desk.old }
    requires room { HasRoom (count - from) desk.old }
    ensures place { (from ≤ result) × (result ≤ count) }
    ensures took { TakesLines seed desk.old (slice_range (lines_of run.now) from result) desk.new }
{
    if NAME_END <= lengths.label && lengths.label <= 2 * NAME_END {
        return feed_while_alike(rt, desk, run, from, count, lengths, seed);
    }
    feed_while_alike(rt, desk, run, from, count, lengths, seed)
}

// The same. A loop in which the lengths do not change has less to do for each line.
#[inline(always)]
fn feed_while_alike<R: Wait>(
    rt: &R,
    desk: &mut Desk,
    run: &[u8],
    from: usize,
    count: usize,
    lengths: Lengths,
    seed: u32,
) -> usize
    requires run { IsRun count run.now }
    requires even { AreEven count lengths.len run.now }
    requires line { lengths.line ≤ lengths.len }
    requires place { (0 < from) × (from ≤ count) }
    requires tenants { HasTenants desk.old }
    requires room { HasRoom (count - from) desk.old }
    ensures place { (from ≤ result) × (result ≤ count) }
    ensures took { TakesLines seed desk.old (slice_range (lines_of run.now) from result) desk.new }
{
    let each = lengths.len + 1;
    let end = end_of_reach(run, lengths);
    let mut fed = from;
    let mut at = from * each;
    'line: while at < end {
        let Some(tenant) = tenant_alike(desk.names(), run, at, lengths) else {
            return fed;
        };
        let span = Span {
            from: at,
            to: at + lengths.line,
        };
        give_known(rt, desk, run, span, lengths.label, tenant, seed);
        fed += 1;
        at += each;
    }
    fed
}

// Before which place of a run a line of these lengths may begin: then all bytes are there that are looked at to find its
// tenant, those of the label and eight at least. It is 0 if such lines have no label or no item.
fn end_of_reach(run: &[u8], lengths: Lengths) -> usize
    ensures label { 0 < result → 0 < lengths.label }
    ensures item { 0 < result → lengths.label + 2 ≤ lengths.line }
    ensures room { (at : ℕ) → at < result → (at + 8 ≤ length run.now) × (at + lengths.label ≤ length run.now) }
{
    if lengths.label == 0 || lengths.line.saturating_sub(lengths.label) < 2 {
        return 0;
    }
    (run.len() + 1).saturating_sub(lengths.label.max(NAME_END))
}

// The place of the tenant of the line at a place, if it has these lengths.
#[inline(always)]
fn tenant_alike(names: &Names, run: &[u8], at: usize, lengths: Lengths) -> Option<u32>
    requires label { 0 < lengths.label }
    requires item { lengths.label + 2 ≤ lengths.line }
    requires line { lengths.line ≤ lengths.len }
    requires within { at + lengths.len ≤ length run.now }
    requires room { at + 8 ≤ length run.now }
    ensures line { IfSome result (λ _. length (strip_carriage_return (slice_range run.now at (at + lengths.len))) ≡ lengths.line) }
    ensures label { IfSome result (λ t. IsLabelledBy names.now (slice_range run.now at (at + lengths.line)) t (lengths.label + 1)) }
{
    if !ends_alike(run, at, lengths) || run[at + lengths.label] != b' ' {
        return None;
    }
    names.finder(lengths.label).place(run, at)
}

// Whether the line at a place has these lengths before its LF and without a CR, which few have.
#[inline(always)]
fn ends_alike(run: &[u8], at: usize, lengths: Lengths) -> bool
    requires some { 0 < lengths.len }
    requires within { at + lengths.len ≤ length run.now }
    ensures { result ≡ true → length (strip_carriage_return (slice_range run.now at (at + lengths.len))) ≡ lengths.line }
{
    if lengths.line == lengths.len {
        run[at + lengths.len - 1] != b'\r'
    } else {
        line_len(run, at, at + lengths.len) == lengths.line
    }
}

// Feeds the lines from one place up to another to a desk.
fn feed_lines<R: Wait>(rt: &R, desk: &mut Desk, window: &Window, from: u32, to: u32, seed: u32)
    requires order { from ≤ to }
    requires within { to ≤ length window.now.lines }
    requires tenants { HasTenants desk.old }
    requires room { HasRoom (to - from) desk.old }
    ensures { TakesLines seed desk.old (slice_range window.now.lines from to) desk.new }
{
    let mut spans = [Span::EMPTY; GROUP];
    let mut lines = window.lines_from(from);
    let mut at = from;
    'group: while at < to {
        let (text, count) = lines.next_lines(&mut spans, (to - at) as usize);
        feed_group(rt, desk, text, &spans[..count], seed);
        at += count as u32;
    }
}

// Feeds lines that lie in a text.
fn feed_group<R: Wait>(rt: &R, desk: &mut Desk, text: &[u8], spans: &[Span], seed: u32)
    requires within { AreBehind 0 spans.now text.now }
    requires tenants { HasTenants desk.old }
    requires room { HasRoom (length spans.now) desk.old }
    ensures { TakesLines seed desk.old (lines_at spans.now text.now) desk.new }
{
    let mut label = 0;
    'line: for i in 0..spans.len() {
        let span = spans[i];
        let tenant = tenant_like(desk.names(), text, span.from, span.to, label);
        label = give_like(rt, desk, text, span, label, tenant, seed);
    }
}

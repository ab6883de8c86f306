// An item that is offered at a desk until it is taken, and a line whose item is.
ghost use Rattle.std.specs.Prelude.{◌≡◌, ◌+◌, ◌<◌, ◌≤◌, ◌^◌, ◌∷◌, [], length, slice_range, OnOk, OnErr, IfErr, IfSome};
ghost use Rattle.sk_model.specs.Width.{IsItem};
ghost use Rattle.sk_desks.specs.Clerks.{StopsAtLine};
ghost use Rattle.sk_desks.specs.Entries.{IsLabelledBy};
ghost use Rattle.sk_desks.specs.Feeds.{HasRoom, HasTenants, TakesItem, TakesLines};
ghost use Rattle.sk_desks.specs.Gathers.{IsOfTenant};

use crate::examined::{Examined, examine};
use sk_hash::hash63_at;
use sk_label::LineStop;
use sk_lines::Span;
use sk_tenant::Desk;
use std::sync::Wait;

/// Gives the item of a line that lies in a text, if it has one, to its tenant, and returns how many bytes its label has.
#[inline(always)]
pub(crate) fn give<R: Wait>(
    rt: &R,
    desk: &mut Desk,
    text: &[u8],
    span: Span,
    seed: u32,
) -> Result<usize, LineStop>
    requires order { span.from ≤ span.to }
    requires within { span.to ≤ length text.now }
    requires tenants { HasTenants desk.old }
    requires room { HasRoom 1 desk.old }
    ensures took { OnOk result (TakesLines seed desk.old (slice_range text.now span.from span.to ∷ []) desk.new) }
    ensures fine { OnOk result (IsOfTenant desk.old.names (slice_range text.now span.from span.to)) }
    ensures stopped { IfErr result (StopsAtLine desk.old.names (slice_range text.now span.from span.to)) }
    ensures unchanged { OnErr result (desk.new ≡ desk.old) }
    ensures names { desk.new.names ≡ desk.old.names }
{
    let found = examine(desk.names(), text, span.from, span.to)?;
    give_item(rt, desk, text, span, found, seed);
    Ok(found.item.saturating_sub(1))
}

/// The same if the line is of a tenant; else it is passed over. Its label mostly has `label` bytes, and its tenant is known
/// then.
#[inline(always)]
pub(crate) fn give_like<R: Wait>(
    rt: &R,
    desk: &mut Desk,
    text: &[u8],
    span: Span,
    label: usize,
    tenant: Option<u32>,
    seed: u32,
) -> usize
    requires order { span.from ≤ span.to }
    requires within { span.to ≤ length text.now }
    requires tenant { IfSome tenant (λ t. IsLabelledBy desk.old.names (slice_range text.now span.from span.to) t (label + 1)) }
    requires tenants { HasTenants desk.old }
    requires room { HasRoom 1 desk.old }
    ensures { TakesLines seed desk.old (slice_range text.now span.from span.to ∷ []) desk.new }
{
    let Some(tenant) = tenant else {
        return give_any(rt, desk, text, span, seed);
    };
    give_known(rt, desk, text, span, label, tenant, seed);
    label
}

/// Gives the item of a line that lies in a text to its tenant, where the label has `label` bytes. Nothing that waits is called
/// for an item that is filtered, as most are: such a call has its cost.
#[inline(always)]
pub(crate) fn give_known<R: Wait>(
    rt: &R,
    desk: &mut Desk,
    text: &[u8],
    span: Span,
    label: usize,
    tenant: u32,
    seed: u32,
)
    requires order { span.from ≤ span.to }
    requires within { span.to ≤ length text.now }
    requires tenant { IsLabelledBy desk.old.names (slice_range text.now span.from span.to) tenant (label + 1) }
    requires tenants { HasTenants desk.old }
    requires room { HasRoom 1 desk.old }
    ensures { TakesLines seed desk.old (slice_range text.now span.from span.to ∷ []) desk.new }
{
    let item = hash63_at(seed, text, span.from + label + 1, span.to);
    if !desk.filters(tenant, item) {
        insist(rt, desk, tenant, item);
    }
}

/// Gives the item of a line that lies in a text, if it has one, to its tenant, and returns how many bytes its label has. A line
/// of no tenant is passed over.
#[cold]
#[inline(never)]
pub(crate) fn give_any<R: Wait>(
    rt: &R,
    desk: &mut Desk,
    text: &[u8],
    span: Span,
    seed: u32,
) -> usize
    requires order { span.from ≤ span.to }
    requires within { span.to ≤ length text.now }
    requires tenants { HasTenants desk.old }
    requires room { HasRoom 1 desk.old }
    ensures { TakesLines seed desk.old (slice_range text.now span.from span.to ∷ []) desk.new }
{
    give(rt, desk, text, span, seed).unwrap_or(0)
}

// Gives the item that was found in a line, if it has one, to its tenant.
#[inline(always)]
fn give_item<R: Wait>(rt: &R, desk: &mut Desk, text: &[u8], span: Span, found: Examined, seed: u32)
    requires order { span.from ≤ span.to }
    requires within { span.to ≤ length text.now }
    requires label { IsLabelledBy desk.old.names (slice_range text.now span.from span.to) found.tenant found.item }
    requires tenant { found.tenant < 2 ^ 32 }
    requires tenants { HasTenants desk.old }
    requires room { HasRoom 1 desk.old }
    ensures took { TakesLines seed desk.old (slice_range text.now span.from span.to ∷ []) desk.new }
    ensures names { desk.new.names ≡ desk.old.names }
{
    let at = span.from + found.item;
    if at == span.to {
        return;
    }
    let item = hash63_at(seed, text, at, span.to);
    insist(rt, desk, found.tenant as u32, item);
}

/// Offers an item for the tenant at place t until it is taken. The quota is never reached: there is room.
#[inline(always)]
pub(crate) fn insist<R: Wait>(rt: &R, desk: &mut Desk, t: u32, item: u64)
    requires place { t < length desk.old.updaters }
    requires item { IsItem item }
    requires room { HasRoom 1 desk.old }
    ensures { TakesItem desk.old t item desk.new }
{
    let _taken = desk.insist(rt, t, item);
}

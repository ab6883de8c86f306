// A line that is examined: whether it is empty, or of a tenant, and where its item begins.
ghost use Rattle.std.specs.Prelude.{◌<◌, ◌≤◌, ◌+◌, ◌^◌, length, slice_range, OnOk, IfOk, IfErr, IfSome};
ghost use Rattle.sk_desks.specs.Clerks.{StopsAtLine};
ghost use Rattle.sk_desks.specs.Entries.{IsLabelledBy};
ghost use Rattle.sk_desks.specs.Gathers.{IsOfTenant};

use sk_label::{LineStop, split, split_short};
use sk_tenant::Names;

/// Where the item of a line begins, at its end if there is none, and the place of its tenant. Both are whole words: a
/// processor waits for half of one that was stored apart.
#[derive(Clone, Copy)]
pub(crate) struct Examined {
    pub(crate) item: usize,
    pub(crate) tenant: usize,
}

impl Examined {
    // An empty line.
    const EMPTY: Examined = Examined { item: 0, tenant: 0 };
}

/// Examines a line that lies in a text.
#[inline(always)]
pub(crate) fn examine(
    names: &Names,
    text: &[u8],
    from: usize,
    to: usize,
) -> Result<Examined, LineStop>
    requires order { from ≤ to }
    requires within { to ≤ length text.now }
    ensures fine { OnOk result (IsOfTenant names.now (slice_range text.now from to)) }
    ensures label { IfOk result (λ line. IsLabelledBy names.now (slice_range text.now from to) line.tenant line.item) }
    ensures tenant { IfOk result (λ line. line.tenant < 2 ^ 32) }
    ensures refused { IfErr result (StopsAtLine names.now (slice_range text.now from to)) }
{
    let Some(parts) = split_short(text, from, to) else {
        return examine_any(names, &text[from..to]);
    };
    let Some(tenant) = names.place(parts.label) else {
        return Err(LineStop::Refused);
    };
    Ok(Examined {
        item: parts.label.len() + 1,
        tenant: tenant as usize,
    })
}

/// The place of the tenant of a line that lies in a text, if its label has this many bytes, the line an item and no fault,
/// and the text eight bytes from its start on. That is less to do than to examine it, which is left to the caller if the
/// answer is none.
#[inline(always)]
pub(crate) fn tenant_like(
    names: &Names,
    text: &[u8],
    from: usize,
    to: usize,
    label: usize,
) -> Option<u32>
    requires order { from ≤ to }
    requires within { to ≤ length text.now }
    ensures fine { IfSome result (λ _. IsOfTenant names.now (slice_range text.now from to)) }
    ensures label { IfSome result (λ t. IsLabelledBy names.now (slice_range text.now from to) t (label + 1)) }
{
    if label == 0 || (to - from).saturating_sub(label) < 2 || text[from + label] != b' ' {
        return None;
    }
    let finder = names.finder(label);
    if !finder.reaches(text, from) {
        return None;
    }
    finder.place(text, from)
}

// Examines a line. Not inlined, so that the loop over lines stays short.
#[inline(never)]
fn examine_any(names: &Names, line: &[u8]) -> Result<Examined, LineStop>
    ensures fine { OnOk result (IsOfTenant names.now line.now) }
    ensures label { IfOk result (λ found. IsLabelledBy names.now line.now found.tenant found.item) }
    ensures tenant { IfOk result (λ found. found.tenant < 2 ^ 32) }
    ensures refused { IfErr result (StopsAtLine names.now line.now) }
{
    if line.is_empty() {
        return Ok(Examined::EMPTY);
    }
    let Some(parts) = split(line) else {
        return Err(LineStop::BadLine);
    };
    let Some(tenant) = names.place(parts.label) else {
        return Err(LineStop::Refused);
    };
    Ok(Examined {
        item: parts.label.len() + 1,
        tenant: tenant as usize,
    })
}

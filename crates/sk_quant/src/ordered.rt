//! Full bases in order, worked out once for all sketches that hold them.
ghost use Rattle.std.specs.Prelude.{◌≡◌, ◌<◌, ◌≤◌, IsTrue, vec_len, vec_capacity};
ghost use Rattle.sk_quant.specs.Order.{in_order};

use sk_model::OutOfMemory;
use std::alloc::Global;
use std::marker::Model;

// The items of a full base, and the same in order. Contracts see it as the items.
#[derive(Drop)]
pub(crate) struct OrderedBase {
    items: Vec<u64>,
    rising: Vec<u64>,
}

impl Model for OrderedBase {
    ghost use Rattle.std.specs.Prelude.{◌≡◌, ℕ, List};
    ghost use Rattle.sk_quant.specs.Order.{in_order};

    ghost Value = { List ℕ };

    ghost view = { λ o. o.items.items };

    ghost invariant = { λ o. o.rising.items ≡ in_order o.items.items };
}

impl OrderedBase {
    // What two lists have together, in order.
    fn of(alloc: Global, first: &[u64], last: &[u64]) -> Result<OrderedBase, OutOfMemory> {
        let mut items = Vec::with_capacity(alloc, first.len() + last.len())?;
        items.extend_from_slice(first)?;
        items.extend_from_slice(last)?;
        let mut rising = Vec::with_capacity(alloc, items.len())?;
        rising.extend_from_slice(&items)?;
        rising.sort_unstable();
        Ok(OrderedBase { items, rising })
    }

    // Whether it is of these.
    fn is_of(&self, items: &[u64]) -> bool
        ensures { IsTrue result → self.now ≡ items.now }
    {
        self.items.as_slice() == items
    }

    // The items in order.
    fn rising(&self) -> &[u64]
        ensures { result.now ≡ in_order self.now }
    {
        self.rising.as_slice()
    }
}

/// The bases that items fill, one after another, each with its items in order.
#[derive(Drop)]
pub struct Ordered {
    bases: Vec<OrderedBase>,
}

impl Ordered {
    // A base that these items fill up, and each that as many more items as it has room for fill after it.
    pub(crate) fn of(
        alloc: Global,
        room: usize,
        base: &[u64],
        first: &[u64],
        rest: &[u64],
    ) -> Result<Ordered, OutOfMemory>
        requires { 0 < room }
    {
        let mut bases = Vec::new(alloc);
        bases.push(OrderedBase::of(alloc, base, first)?)?;
        'bases: for items in rest.chunks_exact(room) {
            bases.push(OrderedBase::of(alloc, &[], items)?)?;
        }
        Ok(Ordered { bases })
    }
}

// The base at this place of what was prepared, if it has one.
pub(crate) fn base_at(prepared: Option<&Ordered>, place: usize) -> Option<&OrderedBase> {
    prepared?.bases.get(place)
}

// Puts items in order, which takes no sort if that was done.
pub(crate) fn put_in_order(items: &mut Vec<u64>, ordered: Option<&OrderedBase>)
    ensures items { items.new.items ≡ in_order items.old.items }
    ensures len { vec_len items.new ≡ vec_len items.old }
    ensures room { vec_capacity items.old ≤ vec_capacity items.new }
{
    if let Some(ordered) = ordered {
        if ordered.is_of(items.as_slice()) {
            items.clear();
            items.extend_from_slice(ordered.rising()).unwrap();
            return;
        }
    }
    items.sort_unstable();
}

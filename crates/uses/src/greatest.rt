//! A sketch of one's own: the greatest item. It becomes concurrent by one impl.
ghost use Rattle.std.specs.Prelude.{◌≡◌, ◌<◌, ◌≤◌, ◌+◌, max, length, IfOk};
ghost use Rattle.sk_model.specs.Limits.{most_kept};
ghost use Rattle.sk_model.specs.Width.{item_end, AreItems};
ghost use Rattle.uses.specs.Greatest.{greatest_of};

use crate::feeding::feed_all;
use sk_compose::laws::kept::kept_stays;
use sk_compose::{Buffer, Composable};
use sk_feed::drain_all;
use sk_hub::{Opened, open};
use sk_model::OutOfMemory;
use sk_theta::Shape;
use std::alloc::Global;
use std::marker::Model;
use std::sync::Wait;

/// Keeps the greatest of the items that it was given, 0 before the first.
#[derive(Drop)]
pub struct Greatest {
    item: u64,
}

impl Model for Greatest {
    ghost use Rattle.std.specs.Prelude.{ℕ, ◌<◌};
    ghost use Rattle.sk_model.specs.Width.{item_end};

    ghost Value = { ℕ };

    ghost view = { λ g. g.item };

    ghost invariant = { λ g. g.item < item_end };
}

impl Greatest {
    /// The sketch of no item.
    pub fn new() -> Greatest
        ensures { result ≡ 0 }
    {
        Greatest { item: 0 }
    }
}

impl Composable for Greatest {
    ghost use Rattle.std.specs.Prelude.{⊤, ◌≡◌, ◌+◌, [], false, nat_le};
    ghost use Rattle.uses.specs.Greatest as own;

    type Told = ();

    const TAKES_MEMORY: bool = false;

    ghost TAKES_MEMORY = { false };

    ghost is_of = { λ kept list. kept ≡ own.greatest_in list };

    ghost numbers = { λ _. [] };

    ghost name = { λ _. [] };

    ghost hint_of = { λ _ list. own.greatest_in list + 1 };

    ghost packed_of = { λ _ list. own.greatest_in list };

    ghost keeps_of = { λ hint item. nat_le hint item };

    ghost early_of = { λ _. false };

    ghost tells = { ⊥ };

    ghost told_name = { λ _. [] };

    ghost told_of = { λ _ _. ⊤ };

    fn merge<R: Wait>(&mut self, _rt: &R, _from: u32, batch: &Buffer) -> Result<(), OutOfMemory> {
        self.item = greatest_from(self.item, batch.items());
        Ok(())
    }

    fn hint(&self) -> u64 {
        self.item + 1
    }

    fn keeps(hint: u64, item: u64) -> bool {
        hint <= item
    }

    fn early(_hint: u64) -> bool {
        false
    }

    fn packed(&self) -> u64 {
        self.item
    }

    fn told(&mut self) {}

    ghost idle_replies = { own.replies };
}

// The greatest of items, and of one before them or 0.
fn greatest_from(first: u64, items: &[u64]) -> u64
    requires first { first < item_end }
    requires items { AreItems items.now }
    ensures greatest { result ≡ max first (greatest_of items.now) }
    ensures limit { result < item_end }
{
    items.iter().fold(first, |most, item| most.max(*item))
}

/// The greatest of some items, found by a hub of one updater.
pub fn greatest_item<R: Wait>(
    rt: &R,
    alloc: Global,
    shape: &Shape,
    items: &[u64],
) -> Result<u64, OutOfMemory>
    requires alone { shape.now.n ≡ 1 }
    requires items { AreItems items.now }
    requires room { length items.now ≤ most_kept }
    ensures { IfOk result (λ word. word ≡ greatest_of items.now) }
{
    let Opened {
        mut heart,
        mut updaters,
        token: _,
    } = open(alloc, shape, Greatest::new())?;
    feed_all(rt, &mut updaters[0], items);
    // It shows the proof that what was kept stays so.
    kept_stays();
    let greatest = drain_all(rt, &mut heart, updaters)?;
    Ok(greatest)
}

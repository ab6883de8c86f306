//! The sketch of which one item's estimate is published.
ghost use Rattle.std.specs.Prelude.{◌≡◌, [], IfOk};
ghost use Rattle.sk_cms.specs.Counts.{no_counts, IsCountOf};
ghost use Rattle.sk_cms.specs.Limits.{IsShape};

use crate::sketch::CountMin;
use crate::versioned::CmsSetup;
use sk_compose::{Buffer, Composable};
use sk_model::OutOfMemory;
use std::alloc::Global;
use std::marker::Model;
use std::sync::Wait;

/// A Count-Min sketch that publishes how often one item stands in the list: a hub over it is asked by a load.
#[derive(Drop)]
pub struct ItemCount {
    sketch: CountMin,
    item: u64,
}

impl Model for ItemCount {
    ghost use Rattle.sk_cms.specs.ItemCounts.{ItemCounts};

    ghost Value = { ItemCounts };

    ghost view = { λ s. record { counts = s.sketch; item = s.item } };
}

impl ItemCount {
    /// The sketch of the empty list, and the item that is counted.
    pub fn new(alloc: Global, setup: CmsSetup, item: u64) -> Result<ItemCount, OutOfMemory>
        requires { IsShape setup.rows setup.width }
        ensures counts { IfOk result (λ s. s.counts ≡ no_counts setup.rows setup.width) }
        ensures item { IfOk result (λ s. s.item ≡ item) }
        ensures empty { IfOk result (λ s. IsCountOf s.counts []) }
    {
        Ok(ItemCount {
            sketch: CountMin::new(alloc, setup.rows, setup.width)?,
            item,
        })
    }
}

impl Composable for ItemCount {
    ghost use Rattle.std.specs.Prelude.{⊤, [], true, false};
    ghost use Rattle.sk_model.specs.Entries.{items_of_entries};
    ghost use Rattle.sk_compose.specs.Idle as Idle;
    ghost use Rattle.sk_cms.specs.Counts.{IsCountOf};
    ghost use Rattle.sk_cms.specs.Estimate.{least_of};
    ghost use Rattle.sk_cms.specs.ItemCounts.{item_numbers, item_of};
    ghost use Rattle.sk_cms.specs.Tallies.{rows_of, width_of};

    type Told = ();

    const TAKES_MEMORY: bool = false;

    ghost TAKES_MEMORY = { false };

    // So that the cells stay in one cache.
    const MERGES_ALONE: bool = true;

    ghost is_of = { λ s list. IsCountOf s.counts (items_of_entries list) };

    ghost numbers = { λ s. item_numbers s.counts.rows s.counts.width s.item };

    ghost name = { λ _. [] };

    ghost hint_of = { λ _ _. 1 };

    ghost packed_of = { λ numbers list. least_of (rows_of numbers) (width_of numbers) (item_of numbers) (items_of_entries list) };

    ghost keeps_of = { λ _ _. true };

    ghost early_of = { λ _. false };

    ghost tells = { ⊥ };

    ghost told_name = { λ _. [] };

    ghost told_of = { λ _ _. ⊤ };

    fn merge<R: Wait>(&mut self, _rt: &R, _from: u32, batch: &Buffer) -> Result<(), OutOfMemory> {
        self.sketch.update_all(batch.items());
        Ok(())
    }

    fn hint(&self) -> u64 {
        1
    }

    fn keeps(_hint: u64, _item: u64) -> bool {
        true
    }

    fn early(_hint: u64) -> bool {
        false
    }

    fn packed(&self) -> u64 {
        self.sketch.least(self.item)
    }

    fn told(&mut self) {}

    ghost idle_replies = { λ _ _ _ _ _ _ _ gone. Idle.never gone };
}

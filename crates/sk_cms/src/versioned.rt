//! The Count-Min sketch by versions.
ghost use Rattle.std.specs.Prelude.{◌≡◌, ◌≤◌, ◌<◌, ℕ, List, length};
ghost use Rattle.sk_cms.specs.Tallies.{put, put_all};

use crate::limits::MOST_COUNTED;
use crate::places::Places;
use crate::sketch::CountMin;
use sk_model::OutOfMemory;
use sk_snap::{Query, Sequential, VersionReader, Versioned};
use std::alloc::Global;

/// The Count-Min sketch that readers see by versions.
pub type VersionedCms<R> = Versioned<CountMin, R>;

/// The reader of its versions.
pub type CmsReader = VersionReader<CountMin>;

/// How many rows a Count-Min sketch has, and how many cells a row.
#[derive(Clone, Copy, Debug, PartialEq, Eq)]
pub struct CmsSetup {
    pub rows: u32,
    pub width: u32,
}

/// How many items the list has, and the least of an item's counts.
#[derive(Clone, Copy, Debug, PartialEq, Eq)]
pub struct Tally {
    pub n: u64,
    pub least: u64,
}

/// The query of how often an item stands in the list.
#[derive(Clone, Copy, Debug, PartialEq, Eq)]
pub struct Least {
    pub x: u64,
}

impl Sequential for CountMin {
    ghost use Rattle.std.specs.Prelude.{true, false};
    ghost use Rattle.sk_cms.specs.Counts.{no_counts, IsCountOf};
    ghost use Rattle.sk_cms.specs.Limits.{IsShape};
    ghost use Rattle.sk_cms.specs.Places.{ArePlacesOf};
    ghost use Rattle.sk_cms.specs.Tallies.{cms_numbers, put_all, put_all_is_of, same_numbers};
    ghost use Rattle.sk_cms.specs.Counting.{no_items_is_of};
    ghost use Rattle.sk_compose.specs.Idle as Idle;

    type Setup = CmsSetup;

    ghost fits = { λ s. IsShape s.rows s.width };

    ghost opened = { λ s. no_counts s.rows s.width };

    ghost numbers = { λ sketch. cms_numbers sketch.rows sketch.width };

    ghost is_of = { λ sketch items. IsCountOf sketch items };

    ghost after = { put_all };

    ghost hint_of = { λ _ _. 1 };

    ghost packed_of = { λ _ items. length items };

    ghost keeps_of = { λ _ _. true };

    ghost early_of = { λ _. false };

    type Prepared = Places;

    ghost is_prepared = { λ found items. ArePlacesOf found.rows found.width items found.places.items };

    fn open(alloc: Global, setup: CmsSetup) -> Result<CountMin, OutOfMemory> {
        CountMin::new(alloc, setup.rows, setup.width)
    }

    fn prepare(&self, alloc: Global, items: &[u64]) -> Result<Places, OutOfMemory> {
        self.find(alloc, items)
    }

    fn take(&mut self, items: &[u64], found: &Places) {
        if !self.update_at(items, found) {
            put_items(self, items);
        }
    }

    fn hint(&self) -> u64 {
        1
    }

    fn packed(&self, count: u64) -> u64 {
        count
    }

    fn keeps(_hint: u64, _item: u64) -> bool {
        true
    }

    fn early(_hint: u64) -> bool {
        false
    }

    ghost begins = { λ s _. no_items_is_of s.rows s.width };

    ghost same_numbers = { same_numbers };

    ghost goes_on = { λ s list items _ few is. put_all_is_of s list items few is };

    ghost idle_replies = { λ _ _ _ _ _ _ gone. Idle.never gone };
}

impl Query<CountMin> for Least {
    ghost use Rattle.std.specs.Prelude.{⊤};
    ghost use Rattle.sk_cms.specs.Tallies.{rows_of, width_of, IsTally};

    type Answer = Tally;

    ghost fits = { λ _ _. ⊤ };

    ghost gives = { λ q numbers items t. IsTally q.x (rows_of numbers) (width_of numbers) items t.n t.least };

    fn ask(self, sketch: &CountMin, count: u64) -> Tally {
        Tally {
            n: count,
            least: sketch.least(self.x),
        }
    }
}

// Puts items to the end of the list, as long as its count has room.
fn put_items(sketch: &mut CountMin, items: &[u64])
    ensures left { sketch.new ≡ put_all sketch.old items.now }
{
    'put: for x in items {
        put_item(sketch, *x);
    }
}

#[inline(always)]
fn put_item(sketch: &mut CountMin, x: u64)
    ensures left { sketch.new ≡ put sketch.old x }
{
    if sketch.len() < MOST_COUNTED {
        sketch.update(x);
    }
}

//! The quantiles sketch by versions.
ghost use Rattle.std.specs.Prelude.{◌≡◌, ◌≤◌, ◌<◌, ℕ, List, length};
ghost use Rattle.sk_quant.specs.Quantiles.{IsSketchOf};
ghost use Rattle.sk_snap.specs.Quants.{put_all};

use crate::query::Query;
use crate::reader::VersionReader;
use crate::sequential::Sequential;
use crate::versioned::Versioned;
use sk_model::OutOfMemory;
use sk_quant::limits::MOST_ITEMS;
use sk_quant::{Ordered, Quant};
use std::alloc::Global;

/// The quantiles sketch that readers see by versions.
pub type VersionedQuant<R> = Versioned<Quant, R>;

/// The reader of its versions.
pub type QuantReader = VersionReader<Quant>;

/// How many items a level of a quantiles sketch has, and whose coins it tosses.
#[derive(Clone, Copy, Debug, PartialEq, Eq)]
pub struct QuantSetup {
    pub k: u32,
    pub key: u64,
}

/// A rank: how many items the list has, how many of them are below a number, and by how much that
/// may be off.
#[derive(Clone, Copy, Debug, PartialEq, Eq)]
pub struct Rank {
    pub n: u64,
    pub below: u64,
    pub within: u64,
}

/// The query of a number's rank.
#[derive(Clone, Copy, Debug, PartialEq, Eq)]
pub struct Below {
    pub x: u64,
}

impl Sequential for Quant {
    ghost use Rattle.std.specs.Prelude.{true, false, ⊤};
    ghost use Rattle.sk_quant.specs.Limits.{least_quantile_k, most_quantile_k, key_end};
    ghost use Rattle.sk_snap.specs.Quants.{quant_numbers, opened, put_all, put_all_is_of, same_numbers, opened_is_of};
    ghost use Rattle.sk_compose.specs.Idle as Idle;

    type Setup = QuantSetup;

    ghost fits = { λ s. (least_quantile_k ≤ s.k) × (s.k ≤ most_quantile_k) × (s.key < key_end) };

    ghost opened = { λ s. opened s.k s.key };

    ghost numbers = { λ q. quant_numbers q.k q.key };

    ghost is_of = { λ q items. IsSketchOf q items };

    ghost after = { put_all };

    ghost hint_of = { λ _ _. 1 };

    ghost packed_of = { λ _ items. length items };

    ghost keeps_of = { λ _ _. true };

    ghost early_of = { λ _. false };

    type Prepared = Option<Ordered>;

    ghost is_prepared = { λ _ _. ⊤ };

    fn open(alloc: Global, setup: QuantSetup) -> Result<Quant, OutOfMemory> {
        Ok(Quant::new(alloc, setup.k, setup.key)?)
    }

    fn prepare(&self, alloc: Global, items: &[u64]) -> Result<Option<Ordered>, OutOfMemory> {
        Quant::prepare(self, alloc, items)
    }

    fn take(&mut self, items: &[u64], prepared: &Option<Ordered>) {
        put_items(self, items, prepared.as_ref());
    }

    fn hint(&self) -> u64 {
        1
    }

    fn packed(&self, count: u64) -> u64 {
        count
    }

    fn keeps(_hint: u64, _item: u64) -> bool {
        true
    }

    fn early(_hint: u64) -> bool {
        false
    }

    ghost begins = { λ s _. opened_is_of s.k s.key };

    ghost same_numbers = { same_numbers };

    ghost goes_on = { λ s list items _ few is. put_all_is_of s list items is few };

    ghost idle_replies = { λ _ _ _ _ _ _ gone. Idle.never gone };
}

impl Query<Quant> for Below {
    ghost use Rattle.std.specs.Prelude.{⊤};
    ghost use Rattle.sk_compose.specs.Numbers.{k_of};
    ghost use Rattle.sk_snap.specs.Quants.{key_of, IsRank};

    type Answer = Rank;

    ghost fits = { λ _ _. ⊤ };

    ghost gives = { λ q numbers items r. IsRank q.x (k_of numbers) (key_of numbers) items
        r.n r.below r.within };

    fn ask(self, sketch: &Quant, count: u64) -> Rank {
        Rank {
            n: count,
            below: sketch.below(self.x),
            within: sketch.error(),
        }
    }
}

// Puts items to the end of the list, as long as its count has room.
fn put_items(quant: &mut Quant, items: &[u64], prepared: Option<&Ordered>)
    ensures { quant.new ≡ put_all quant.old items.now }
{
    let room = (MOST_ITEMS - quant.len()) as usize;
    let taken = items.len().min(room);
    quant.update_all(&items[..taken], prepared);
}

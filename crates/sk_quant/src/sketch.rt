//! The sketch.
ghost use Rattle.std.specs.Prelude.{◌≡◌, ◌<◌, ◌≤◌, ◌+◌, ℕ, List, [], ◌∷◌, ◌++◌, length, replicate, take};
ghost use Rattle.std.specs.Prelude.{All, IfOk, vec_capacity};
ghost use Rattle.std.specs.Int.{abs_diff};
ghost use Rattle.sk_quant.specs.Held.{layers_of, ranked};
ghost use Rattle.sk_quant.specs.Limits.{least_quantile_k, most_quantile_k, key_end, most_items, level_count};
ghost use Rattle.sk_quant.specs.Quantiles.{Quantiles, updated, updated_all, IsSketchOf, IsWholeQuantiles};
ghost use Rattle.sk_quant.specs.Ranks.{rank_of, weighted_rank, rank_error};
ghost use Rattle.sk_quant.specs.Stored.{lists_of};

use crate::coins::Coins;
use crate::compaction::{put, put_all};
use crate::limits::LEVEL_COUNT;
use crate::ordered::{Ordered, OrderedBase, base_at};
use crate::ranks::{error_of, rank, rank_in_levels};
use sk_model::OutOfMemory;
use std::alloc::Global;
use std::marker::Model;

/// The quantiles sketch of a list of items, after Agarwal and others ("Mergeable Summaries", PODS 2012): a
/// base of items as they came, and levels whose items stand for 2, 4, 8 and so on.
#[derive(Drop)]
pub struct Quant {
    k: u32,
    count: u64,
    base: Vec<u64>,
    levels: Vec<Vec<u64>>,
    coins: Coins,
}

impl Model for Quant {
    ghost use Rattle.sk_quant.specs.Quantiles.{Quantiles};
    ghost use Rattle.sk_quant.specs.Stored.{shown_by, AreStored};

    ghost Value = { Quantiles };

    ghost view = { λ q. shown_by q.k q.count q.base q.levels q.coins };

    ghost invariant = { λ q. AreStored q.k q.count q.base q.levels q.coins };
}

impl Quant {
    /// The sketch of the empty list, with these coins. All its memory is taken here.
    pub fn new(alloc: Global, k: u32, key: u64) -> Result<Quant, OutOfMemory>
        requires least { least_quantile_k ≤ k }
        requires most { k ≤ most_quantile_k }
        requires key { key < key_end }
        ensures k { IfOk result (λ s. s.k ≡ k) }
        ensures key { IfOk result (λ s. s.key ≡ key) }
        ensures empty { IfOk result (λ s. IsSketchOf s []) }
    {
        Ok(Quant {
            k,
            count: 0,
            base: Vec::with_capacity(alloc, 2 * k as usize)?,
            levels: empty_levels(alloc, k as usize)?,
            coins: Coins::new(key),
        })
    }

    /// Puts an item to the end of the list.
    #[inline]
    pub fn update(&mut self, x: u64)
        requires { self.old.count < most_items }
        ensures left { self.new ≡ updated self.old x }
        ensures list { (items : List ℕ) → IsSketchOf self.old items
            → IsSketchOf self.new (items ++ x ∷ []) }
    {
        put(
            self.k as usize,
            &mut self.base,
            &mut self.levels,
            &mut self.coins,
            x,
        );
        self.count += 1;
    }

    /// Puts each base that these items fill in order, for all sketches that hold what this one does: each then
    /// takes them without a sort of its own. It returns nothing if they fill none.
    pub fn prepare(&self, alloc: Global, items: &[u64]) -> Result<Option<Ordered>, OutOfMemory> {
        let room = 2 * self.k as usize;
        let left = room - self.base.len();
        if items.len() < left {
            return Ok(None);
        }
        let (first, rest) = items.split_at(left);
        let ordered = Ordered::of(alloc, room, self.base.as_slice(), first, rest)?;
        Ok(Some(ordered))
    }

    /// Puts items to the end of the list. What was prepared only saves time.
    pub fn update_all(&mut self, items: &[u64], prepared: Option<&Ordered>)
        requires { self.old.count + length items.now ≤ most_items }
        ensures left { self.new ≡ updated_all self.old items.now }
    {
        let mut at = 0;
        let mut filled = 0;
        'fill: while at < items.len() {
            at += self.fill(&items[at..], base_at(prepared, filled));
            filled += 1;
        }
    }

    // Puts items to the end of the list until the base is full, or else all of them, and returns how many.
    fn fill(&mut self, items: &[u64], ordered: Option<&OrderedBase>) -> usize
        requires some { 1 ≤ length items.now }
        requires room { self.old.count + length items.now ≤ most_items }
        ensures left { self.new ≡ updated_all self.old (take result items.now) }
        ensures some { 1 ≤ result }
        ensures most { result ≤ length items.now }
    {
        let taken = items.len().min(2 * self.k as usize - self.base.len());
        put_all(
            self.k as usize,
            &mut self.base,
            &mut self.levels,
            &mut self.coins,
            &items[..taken],
            ordered,
        );
        self.count += taken as u64;
        taken
    }

    /// By the items held and their weights, how many of the list are below x.
    pub fn below(&self, x: u64) -> u64
        ensures held { result ≡ weighted_rank x (layers_of self.now.held) }
        ensures value { (items : List ℕ) → IsSketchOf self.now items
            → result ≡ ranked x self.now.k self.now.key items }
        ensures near { (items : List ℕ) → IsSketchOf self.now items
            → abs_diff result (rank_of x items) ≤ rank_error (length items) self.now.k }
    {
        rank(&self.base, x) + 2 * rank_in_levels(&self.levels, x)
    }

    /// How many items the list has.
    pub fn len(&self) -> u64
        ensures count { result ≡ self.now.count }
        ensures value { (items : List ℕ) → IsSketchOf self.now items → result ≡ length items }
        ensures whole { IsWholeQuantiles self.now }
    {
        self.count
    }

    /// By how much `below` may be off.
    pub fn error(&self) -> u64
        ensures count { result ≡ rank_error self.now.count self.now.k }
        ensures value { (items : List ℕ) → IsSketchOf self.now items
            → result ≡ rank_error (length items) self.now.k }
    {
        error_of(self.count, self.k)
    }
}

// Levels with nothing in them, and room for k items in each.
fn empty_levels(alloc: Global, k: usize) -> Result<Vec<Vec<u64>>, OutOfMemory>
    ensures levels { IfOk result (λ levels. lists_of levels.items ≡ replicate level_count []) }
    ensures rooms { IfOk result (λ levels. All (λ level. k ≤ vec_capacity level) levels.items) }
{
    let mut levels = Vec::with_capacity(alloc, LEVEL_COUNT)?;
    'levels: for _ in 0..LEVEL_COUNT {
        levels.push(Vec::with_capacity(alloc, k)?)?;
    }
    Ok(levels)
}

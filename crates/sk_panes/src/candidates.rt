// What of an interval's items may be among its k smallest.
ghost use Rattle.std.specs.Prelude.{◌≡◌, ◌+◌, ◌*◌, ◌≤◌, ◌++◌, ◌∷◌, [], ℕ, List, length, vec_capacity, IfOk, OnOk};
ghost use Rattle.sk_model.specs.Limits.{least_k, most_k, most_kept, IsFrom};
ghost use Rattle.sk_model.specs.Sketch.{k_smallest, theta_of};
ghost use Rattle.sk_model.specs.Width.{IsItem, AreItems};
ghost use Rattle.sk_theta.specs.Kept.{theta_kept};
ghost use Rattle.sk_hub.specs.Calls.{Takes};
ghost use Rattle.sk_hub.specs.Updaters.{kept_of};
ghost use Rattle.sk_panes.specs.Candidates.{HaveSmallest, TakesSmallest};

use sk_compose::Composable;
use sk_feed::insist;
use sk_hub::Updater;
use sk_model::OutOfMemory;
use sk_theta::ITEM_END;
use std::alloc::Global;
use std::marker::Model;
use std::sync::Wait;

// Fewer than 2k items of an interval, some perhaps more than once. Its hub gets those that are left at its end: at most
// k, and each of them once.
#[derive(Drop)]
pub(crate) struct Candidates {
    k: usize,
    items: Vec<u64>,
    bound: u64,
}

impl Model for Candidates {
    ghost use Rattle.std.specs.Prelude.{◌<◌, ◌*◌, ◌≤◌, length, vec_capacity};
    ghost use Rattle.sk_model.specs.Limits.{least_k, most_k, IsFrom};
    ghost use Rattle.sk_model.specs.Width.{AreItems};
    ghost use Rattle.sk_panes.specs.Candidates.{CandidatesState};

    ghost Value = { CandidatesState };

    ghost view = { λ c. record { k = c.k; items = c.items.items; bound = c.bound } };

    ghost invariant = { λ c. IsFrom least_k most_k c.k × (length c.items.items < 2 * c.k)
        × (2 * c.k ≤ vec_capacity c.items) × AreItems c.items.items };
}

impl Candidates {
    // Those of no item. All memory is taken here.
    pub(crate) fn new(alloc: Global, k: u32) -> Result<Candidates, OutOfMemory>
        requires k { IsFrom least_k most_k k }
        ensures k { IfOk result (λ c. c.k ≡ k) }
        ensures none { IfOk result (HaveSmallest []) }
    {
        let k = k as usize;
        Ok(Candidates {
            k,
            items: Vec::with_capacity(alloc, 2 * k)?,
            bound: ITEM_END,
        })
    }

    // Takes an item of the interval.
    #[inline(always)]
    pub(crate) fn add(&mut self, item: u64)
        requires item { IsItem item }
        ensures k { self.new.k ≡ self.old.k }
        ensures smallest { (items : List ℕ) → AreItems items → HaveSmallest items self.old → HaveSmallest (items ++ item ∷ []) self.new }
    {
        if item < self.bound {
            self.keep(item);
        }
    }

    // The rest of `add`, for an item below the bound.
    #[inline(always)]
    fn keep(&mut self, item: u64)
        requires item { IsItem item }
        ensures k { self.new.k ≡ self.old.k }
        ensures smallest { (items : List ℕ) → AreItems items → HaveSmallest items self.old → HaveSmallest (items ++ item ∷ []) self.new }
    {
        self.items.push_reserved(item);
        if self.items.len() == 2 * self.k {
            self.bound = cut(&mut self.items, self.k);
        }
    }

    // Gives an updater what is left of them, and makes them those of no item, in the same memory. The greatest come
    // first, since a heap takes each of those without a move of the others.
    pub(crate) fn hand_to<C: Composable, R: Wait>(
        &mut self,
        rt: &R,
        u: &mut Updater<C>,
    ) -> Result<(), OutOfMemory>
        requires room { length (kept_of u.old) + 2 * most_k ≤ most_kept }
        ensures k { self.new.k ≡ self.old.k }
        ensures taken { OnOk result (TakesSmallest C.keeps_of C.hint_of self.old.k self.old.items u.old u.new) }
        ensures none { OnOk result (HaveSmallest [] self.new) }
    {
        self.settle();
        insist_each(rt, u, self.items.as_slice())?;
        self.items.clear();
        self.bound = ITEM_END;
        Ok(())
    }

    // Leaves the k smallest alone, the greatest first.
    fn settle(&mut self)
        ensures k { self.new.k ≡ self.old.k }
        ensures smallest { k_smallest self.old.k self.new.items ≡ k_smallest self.old.k self.old.items }
        ensures few { length self.new.items ≤ self.old.k }
    {
        self.bound = cut(&mut self.items, self.k);
        self.items.reverse();
    }
}

// Leaves the k smallest of a list alone, rising, and returns theta.
#[inline(never)]
fn cut(items: &mut Vec<u64>, k: usize) -> u64
    requires some { 1 ≤ k }
    ensures smallest { items.new.items ≡ k_smallest k items.old.items }
    ensures theta { result ≡ theta_of k items.old.items }
    ensures capacity { vec_capacity items.new ≡ vec_capacity items.old }
{
    items.sort_unstable();
    items.dedup();
    items.truncate(k);
    theta(items, k)
}

// Theta as the kept items give it.
fn theta(kept: &[u64], k: usize) -> u64
    requires some { 1 ≤ k }
    ensures { result ≡ theta_kept k kept.now }
{
    if kept.len() < k {
        ITEM_END
    } else {
        kept[k - 1]
    }
}

// Feeds items to an updater, in order.
fn insist_each<C: Composable, R: Wait>(
    rt: &R,
    u: &mut Updater<C>,
    items: &[u64],
) -> Result<(), OutOfMemory>
    requires items { AreItems items.now }
    requires room { length (kept_of u.old) + length items.now ≤ most_kept }
    ensures taken { OnOk result (Takes C.keeps_of C.hint_of u.old items.now u.new) }
{
    'item: for item in items {
        insist(rt, u, *item)?;
    }
    Ok(())
}

//! One sketch, sketches that were filled apart and are joined, and one that is filled again.
ghost use Rattle.std.specs.Prelude.{◌≡◌, ◌≤◌, ◌++◌, ℕ, List, IfOk};
ghost use Rattle.sk_model.specs.Limits.{least_k, most_k};
ghost use Rattle.sk_model.specs.Sketch.{k_smallest, estimate_of};
ghost use Rattle.sk_model.specs.Width.{AreItems};
ghost use Rattle.sk_theta.specs.Kept.{StandsFor};

use sk_heap::HeapTheta;
use sk_model::OutOfMemory;
use sk_model::laws::sketch::k_smallest_append;
use std::alloc::Global;

/// The estimate of how many distinct items a list has.
pub fn estimate_items(alloc: Global, k: u32, items: &[u64]) -> Result<(u128, u64), OutOfMemory>
    requires least { least_k ≤ k }
    requires most { k ≤ most_k }
    requires items { AreItems items.now }
    ensures { IfOk result (λ fraction. fraction ≡ estimate_of k items.now) }
{
    let mut sketch = HeapTheta::new(alloc, k)?;
    'item: for item in items {
        sketch.update(*item);
    }
    Ok(sketch.fraction())
}

/// The estimate of two lists by a sketch of each: one sketch's, over the one after the other.
pub fn estimate_of_both(
    alloc: Global,
    k: u32,
    items: &[u64],
    more: &[u64],
) -> Result<(u128, u64), OutOfMemory>
    requires least { least_k ≤ k }
    requires most { k ≤ most_k }
    requires items { AreItems items.now }
    requires more { AreItems more.now }
    ensures { IfOk result (λ fraction. fraction ≡ estimate_of k (items.now ++ more.now)) }
{
    let mut sketch = HeapTheta::new(alloc, k)?;
    sketch.merge(items);
    let mut other = HeapTheta::new(alloc, k)?;
    other.merge(more);
    sketch.join(&other);
    Ok(sketch.fraction())
}

/// The estimate of a list by a sketch that was used before, which takes no memory.
pub fn estimate_again(sketch: &mut HeapTheta, items: &[u64]) -> (u128, u64)
    requires items { AreItems items.now }
    ensures value { result ≡ estimate_of sketch.old.k items.now }
    ensures k { sketch.new.k ≡ sketch.old.k }
{
    sketch.clear();
    sketch.merge(items);
    sketch.fraction()
}

/// What a sketch of two lists keeps, from what a sketch of each shows.
pub fn list_of_both(
    alloc: Global,
    one: &HeapTheta,
    other: &HeapTheta,
) -> Result<Vec<u64>, OutOfMemory>
    requires k { other.now.k ≡ one.now.k }
    ensures { (items more : List ℕ) → StandsFor one.now items → StandsFor other.now more
        → IfOk result (λ v. v.items ≡ k_smallest one.now.k (items ++ more)) }
{
    let mut both = HeapTheta::new(alloc, one.k())?;
    // It shows the proof what holds of every sketch.
    let _other = other.k();
    both.merge(one.list()?.as_slice());
    both.merge(other.list()?.as_slice());
    // It shows the proof that the k smallest need no more than what is kept.
    k_smallest_append();
    both.list()
}

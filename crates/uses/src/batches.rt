//! A sketch into which whole batches are merged.
ghost use Rattle.std.specs.Prelude.{◌≡◌, ◌≤◌, ◌++◌, IfOk};
ghost use Rattle.sk_model.specs.Limits.{least_k, most_k};
ghost use Rattle.sk_model.specs.Sketch.{packed_of};
ghost use Rattle.sk_model.specs.Width.{AreItems};

use sk_model::OutOfMemory;
use sk_sorted::SortedTheta;
use std::alloc::Global;

/// The word of a list with a batch after it, by a sketch of the list into which the batch is merged.
/// `sk_theta::unpack` reads it.
pub fn word_with_batch(
    alloc: Global,
    k: u32,
    items: &[u64],
    batch: &[u64],
) -> Result<u64, OutOfMemory>
    requires least { least_k ≤ k }
    requires most { k ≤ most_k }
    requires items { AreItems items.now }
    requires batch { AreItems batch.now }
    ensures { IfOk result (λ word. word ≡ packed_of k (items.now ++ batch.now)) }
{
    let mut sketch = SortedTheta::new(alloc, k)?;
    sketch.merge(items);
    sketch.merge(batch);
    Ok(sketch.packed())
}

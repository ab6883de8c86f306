// Sketches that are joined into one.
ghost use Rattle.std.specs.Prelude.{◌≡◌, ◌++◌, ◌∷◌, [], List, ℕ, All};
ghost use Rattle.sk_model.specs.Width.{IsItem, AreItems};
ghost use Rattle.sk_theta.specs.Kept.{StandsFor};
ghost use Rattle.sk_window.specs.Intervals.{StandForEach, all_items};
ghost use Rattle.sk_window.specs.Joins.{all_kept, below};

use circular_buffer::HeapCircularBuffer;
use sk_heap::HeapTheta;

// Joins each of them into a sketch. The hashes below a bound come first: if theta is then not above it, no other one
// is among the k smallest. Any bound will do, and one that is a little above theta costs least.
pub(crate) fn join_each(into: &mut HeapTheta, sketches: &HeapCircularBuffer<HeapTheta>, bound: u64)
    requires k { All (λ s. s.k ≡ into.old.k) sketches.now.items }
    ensures k { into.new.k ≡ into.old.k }
    ensures stands { (lists : List (List ℕ)) (items : List ℕ) → StandForEach into.old.k sketches.now.items lists → StandsFor into.old items
        → StandsFor into.new (items ++ all_items lists) }
{
    join_below(into, sketches, bound);
    if into.theta() > bound {
        join_whole(into, sketches);
    }
}

// Joins each of them whole.
fn join_whole(into: &mut HeapTheta, sketches: &HeapCircularBuffer<HeapTheta>)
    requires k { All (λ s. s.k ≡ into.old.k) sketches.now.items }
    ensures k { into.new.k ≡ into.old.k }
    ensures stands { (lists : List (List ℕ)) (items : List ℕ) → StandForEach into.old.k sketches.now.items lists → StandsFor into.old items
        → StandsFor into.new (items ++ all_items lists) }
{
    'sketch: for place in 0..sketches.len() {
        let Some(sketch) = sketches.get(place) else {
            unreachable!()
        };
        into.join(sketch);
    }
}

// Puts in their hashes below a bound.
fn join_below(into: &mut HeapTheta, sketches: &HeapCircularBuffer<HeapTheta>, bound: u64)
    ensures k { into.new.k ≡ into.old.k }
    ensures items { AreItems (all_kept sketches.now.items) }
    ensures stands { (items : List ℕ) → StandsFor into.old items → StandsFor into.new (items ++ below bound (all_kept sketches.now.items)) }
{
    'below: for place in 0..sketches.len() {
        let Some(sketch) = sketches.get(place) else {
            unreachable!()
        };
        put_below(into, sketch, bound);
    }
}

// Puts in the hashes of a sketch below a bound.
fn put_below(into: &mut HeapTheta, sketch: &HeapTheta, bound: u64)
    ensures k { into.new.k ≡ into.old.k }
    ensures items { AreItems sketch.now.kept }
    ensures stands { (items : List ℕ) → StandsFor into.old items → StandsFor into.new (items ++ below bound sketch.now.kept) }
{
    // It shows the proof that they are items.
    let _count = sketch.count();
    let hashes = sketch.heap();
    'hash: for hash in hashes {
        put_if_below(into, *hash, bound);
    }
}

// Puts in a hash if it is below a bound.
#[inline(always)]
fn put_if_below(into: &mut HeapTheta, hash: u64, bound: u64)
    requires item { IsItem hash }
    ensures k { into.new.k ≡ into.old.k }
    ensures stands { (items : List ℕ) → StandsFor into.old items → StandsFor into.new (items ++ below bound (hash ∷ [])) }
{
    if hash < bound {
        into.update(hash);
    }
}

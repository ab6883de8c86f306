//! The sketches of closed intervals, oldest first.
ghost use Rattle.std.specs.Prelude.{◌≡◌, ◌<◌, ◌-◌, ◌++◌, ◌∷◌, [], List, ℕ, All, length, drop, replicate, IfOk};
ghost use Rattle.sk_model.specs.Limits.{least_k, most_k, IsFrom};
ghost use Rattle.sk_theta.specs.Kept.{StandsFor};
ghost use Rattle.sk_window.specs.Intervals.{StandForEach, IsReplyOf, with_skipped};

use circular_buffer::HeapCircularBuffer;
use sk_heap::HeapTheta;
use sk_model::OutOfMemory;
use sk_theta::Reply;
use std::alloc::Global;

// As many sketches as this, of no items. They fill the buffer.
pub(crate) fn empty_sketches(
    alloc: Global,
    k: u32,
    count: u32,
) -> Result<HeapCircularBuffer<HeapTheta>, OutOfMemory>
    requires k { IsFrom least_k most_k k }
    ensures stand { IfOk result (λ sketches. StandForEach k sketches.items (replicate count [])) }
    ensures capacity { IfOk result (λ sketches. sketches.capacity ≡ count) }
{
    let mut sketches = HeapCircularBuffer::with_capacity(alloc, count as usize)?;
    'sketch: for _ in 0..count {
        let _none = sketches.push_back(HeapTheta::new(alloc, k)?);
    }
    Ok(sketches)
}

// Puts a sketch to the end of a full buffer, and returns the oldest one.
pub(crate) fn replace_oldest(
    sketches: &mut HeapCircularBuffer<HeapTheta>,
    sketch: HeapTheta,
) -> HeapTheta
    requires some { 0 < length sketches.old.items }
    requires full { length sketches.old.items ≡ sketches.old.capacity }
    ensures items { sketches.new.items ≡ drop 1 sketches.old.items ++ sketch ∷ [] }
    ensures capacity { sketches.new.capacity ≡ sketches.old.capacity }
    ensures same_k { (k : ℕ) → All (λ s. s.k ≡ k) sketches.old.items → result.k ≡ k }
{
    let Some(oldest) = sketches.push_back(sketch) else {
        unreachable!()
    };
    oldest
}

// Skips an interval: the memory of the oldest one is that of the newest.
fn skip_one(sketches: &mut HeapCircularBuffer<HeapTheta>)
    requires some { 0 < length sketches.old.items }
    requires full { length sketches.old.items ≡ sketches.old.capacity }
    ensures count { length sketches.new.items ≡ length sketches.old.items }
    ensures capacity { sketches.new.capacity ≡ sketches.old.capacity }
    ensures same_k { (k : ℕ) → All (λ s. s.k ≡ k) sketches.old.items → All (λ s. s.k ≡ k) sketches.new.items }
    ensures stand { (k : ℕ) (lists : List (List ℕ)) → StandForEach k sketches.old.items lists
        → StandForEach k sketches.new.items (drop 1 lists ++ [] ∷ []) }
{
    let Some(mut oldest) = sketches.pop_front() else {
        unreachable!()
    };
    oldest.clear();
    let _none = sketches.push_back(oldest);
}

// Skips this many intervals. It takes no more steps than there are sketches.
pub(crate) fn skip(sketches: &mut HeapCircularBuffer<HeapTheta>, count: u64)
    requires some { 0 < length sketches.old.items }
    requires full { length sketches.old.items ≡ sketches.old.capacity }
    ensures count { length sketches.new.items ≡ length sketches.old.items }
    ensures capacity { sketches.new.capacity ≡ sketches.old.capacity }
    ensures same_k { (k : ℕ) → All (λ s. s.k ≡ k) sketches.old.items → All (λ s. s.k ≡ k) sketches.new.items }
    ensures stand { (k : ℕ) (lists : List (List ℕ)) → StandForEach k sketches.old.items lists
        → StandForEach k sketches.new.items (with_skipped lists count) }
{
    let steps = count.min(sketches.len() as u64);
    'step: for _ in 0..steps {
        skip_one(sketches);
    }
}

// The count and theta of a sketch.
pub(crate) fn reply_of(sketch: &HeapTheta) -> Reply
    ensures reply { (items : List ℕ) → StandsFor sketch.now items → IsReplyOf sketch.now.k items result }
{
    Reply {
        count: sketch.count(),
        theta: sketch.theta(),
    }
}

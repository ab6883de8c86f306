//! The heap and the table together.
ghost use Rattle.std.specs.Prelude.{◌≡◌, ◌≢◌, ◌↔◌, ◌+◌, ◌*◌, ◌<◌, ◌≤◌, ℕ, ◌∷◌, length, take, All, IsTrue, IfOk, IsPermutation, nat_eq};
ghost use Rattle.std.specs.BinaryHeap.{IsHeap, heap_items, heap_len, heap_capacity};
ghost use Rattle.std.specs.List.{IsDistinct};
ghost use Rattle.std.specs.Ordering.{nat_cmp};
ghost use Rattle.sk_model.specs.Sketch.{placed, rising};
ghost use Rattle.sk_theta.specs.Kept.{theta_kept};
ghost use Rattle.sk_heap.specs.Held.{IsHeld, IsExchanged};
ghost use Rattle.sk_heap.specs.Table.{IsFirstEmpty};
ghost use Rattle.sk_model.specs.Width.{IsItem};

use crate::table::{find, remove};
use sk_model::OutOfMemory;
use sk_theta::ITEM_END;
use std::collections::BinaryHeap;

// Puts a hash in the place of the greatest, which it returns.
fn replace_greatest(heap: &mut BinaryHeap<u64>, hash: u64) -> u64
    requires some { 0 < heap_len heap.old }
    requires order { IsHeap nat_cmp (heap_items heap.old) }
    ensures members { IsExchanged hash (heap_items heap.old) (heap_items heap.new) result }
    ensures order { IsHeap nat_cmp (heap_items heap.new) }
    ensures capacity { heap_capacity heap.new ≡ heap_capacity heap.old }
{
    let mut top = heap.peek_mut().unwrap();
    let greatest = *top;
    *top = hash;
    greatest
}

// Puts a hash to fewer than k others, at its empty place of the table. Out of line, as the next is: a hash
// that is found pays for neither.
#[inline(never)]
fn add(heap: &mut BinaryHeap<u64>, table: &mut [u64], k: usize, at: usize, hash: u64)
    requires held { IsHeld k (heap_items heap.old) table.old }
    requires item { IsItem hash }
    requires empty { IsFirstEmpty hash table.old at }
    requires few { heap_len heap.old < k }
    requires half { 2 * (heap_len heap.old + 1) ≤ length table.old }
    requires room { k ≤ heap_capacity heap.old }
    ensures held { IsHeld k (heap_items heap.new) table.new }
    ensures members { IsPermutation (hash ∷ heap_items heap.old) (heap_items heap.new) }
    ensures room { k ≤ heap_capacity heap.new }
{
    table[at] = hash + 1;
    heap.push(hash).unwrap();
}

// Puts a hash in the place of the greatest of k.
#[inline(never)]
fn exchange(heap: &mut BinaryHeap<u64>, table: &mut [u64], k: usize, at: usize, hash: u64) -> u64
    requires held { IsHeld k (heap_items heap.old) table.old }
    requires item { IsItem hash }
    requires empty { IsFirstEmpty hash table.old at }
    requires full { heap_len heap.old ≡ k }
    requires room { k ≤ heap_capacity heap.old }
    ensures held { IsHeld k (heap_items heap.new) table.new }
    ensures members { IsExchanged hash (heap_items heap.old) (heap_items heap.new) result }
    ensures room { k ≤ heap_capacity heap.new }
{
    table[at] = hash + 1;
    let greatest = replace_greatest(heap, hash);
    remove(table, greatest);
    greatest
}

// Puts a hash below theta among the k smallest, and returns whether they changed.
pub fn put_in(heap: &mut BinaryHeap<u64>, table: &mut [u64], k: usize, hash: u64) -> bool
    requires held { IsHeld k (heap_items heap.old) table.old }
    requires item { IsItem hash }
    requires below { hash < theta_kept k (rising (heap_items heap.old)) }
    requires half { heap_len heap.old < k → 2 * (heap_len heap.old + 1) ≤ length table.old }
    requires room { k ≤ heap_capacity heap.old }
    ensures held { IsHeld k (heap_items heap.new) table.new }
    ensures kept { rising (heap_items heap.new) ≡ take k (placed hash (rising (heap_items heap.old))) }
    ensures changed { IsTrue result ↔ (rising (heap_items heap.new) ≢ rising (heap_items heap.old)) }
    ensures room { k ≤ heap_capacity heap.new }
{
    let Err(at) = find(table, hash) else {
        return false
    };
    if heap.len() < k {
        add(heap, table, k, at, hash);
    } else {
        exchange(heap, table, k, at, hash);
    }
    true
}

// Theta as the heap gives it.
pub fn theta_of(heap: &BinaryHeap<u64>, k: usize) -> u64
    requires some { 1 ≤ k }
    requires within { heap_len heap.now ≤ k }
    requires order { IsHeap nat_cmp (heap_items heap.now) }
    requires distinct { IsDistinct nat_eq (heap_items heap.now) }
    ensures { result ≡ theta_kept k (rising (heap_items heap.now)) }
{
    if heap.len() < k {
        ITEM_END
    } else {
        *heap.peek().unwrap()
    }
}

// The hashes, rising.
pub fn sorted(heap: &BinaryHeap<u64>) -> Result<Vec<u64>, OutOfMemory>
    requires { IsDistinct nat_eq (heap_items heap.now) }
    ensures { IfOk result (λ v. v.items ≡ rising (heap_items heap.now)) }
{
    let mut hashes = heap.clone()?.into_vec();
    hashes.sort_unstable();
    Ok(hashes)
}

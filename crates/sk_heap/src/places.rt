//! How many places the table has: few at first, and more as hashes come. So a sketch that keeps little costs little to
//! make and to clear, however large k is.
ghost use Rattle.std.specs.Prelude.{◌≡◌, ◌⊎◌, ◌+◌, ◌*◌, ◌<◌, ◌≤◌, ◌∷◌, length, replicate, nat_eq, Contains};
ghost use Rattle.std.specs.BinaryHeap.{heap_items, heap_len};
ghost use Rattle.std.specs.Int.{IsPowerOfTwo, IsNextPowerOfTwo};
ghost use Rattle.std.specs.List.{IsDistinct};
ghost use Rattle.std.specs.Vec.{vec_capacity};
ghost use Rattle.sk_heap.specs.Heap.{HasSame, times};
ghost use Rattle.sk_heap.specs.Held.{IsHeld, IsTabled};
ghost use Rattle.sk_heap.specs.Table.{IsProbed, most_places};
ghost use Rattle.sk_model.specs.Limits.{most_k};
ghost use Rattle.sk_model.specs.Width.{IsItem, AreItems};

use crate::table::find;
use std::collections::BinaryHeap;

// How many places a table of no hashes has, if k hashes need no fewer.
const LEAST: usize = 8;

// A table that is too short gets this many places for each hash, so that hashes are seldom put in again.
const WIDER: usize = 32;

// How many places a table of no hashes has, if one of k hashes has this many.
pub fn first_places(places: usize) -> usize
    requires power { IsPowerOfTwo places }
    requires wide { 4 ≤ places }
    ensures power { IsPowerOfTwo result }
    ensures wide { 4 ≤ result }
    ensures within { result ≤ places }
{
    if places < LEAST { places } else { LEAST }
}

// How many places a table gets that is too short for one hash more than these.
fn more_places(count: usize, places: usize) -> usize
    requires some { 1 ≤ count }
    requires few { 2 * count ≤ places }
    requires short { places ≤ most_places }
    requires power { IsPowerOfTwo places }
    requires wide { 4 ≤ places }
    ensures power { IsPowerOfTwo result }
    ensures wide { 4 ≤ result }
    ensures room { (result ≡ places) ⊎ (2 * (count + 1) ≤ result) }
    ensures half { 2 * count ≤ result }
    ensures within { result ≤ places }
{
    let wider = (WIDER * count).next_power_of_two();
    if wider < places { wider } else { places }
}

// Puts a hash that the table has not to its empty place.
fn put_one(table: &mut [u64], hash: u64)
    requires item { IsItem hash }
    requires power { IsPowerOfTwo (length table.old) }
    requires short { length table.old ≤ most_places }
    requires room { Contains table.old 0 }
    requires probed { IsProbed table.old }
    requires absent { times (hash + 1) table.old ≡ 0 }
    ensures probed { IsProbed table.new }
    ensures more { HasSame (0 ∷ table.new) ((hash + 1) ∷ table.old) }
{
    let Err(at) = find(table, hash) else {
        unreachable!()
    };
    table[at] = hash + 1;
}

// Puts hashes into an empty table.
fn put_each(table: &mut [u64], hashes: &[u64])
    requires items { AreItems hashes.now }
    requires distinct { IsDistinct nat_eq hashes.now }
    requires power { IsPowerOfTwo (length table.old) }
    requires size { (4 ≤ length table.old) × (length table.old ≤ most_places) }
    requires half { 2 * length hashes.now ≤ length table.old }
    requires empty { table.old ≡ replicate (length table.old) 0 }
    ensures tabled { IsTabled hashes.now table.new }
{
    'hash: for at in (0..hashes.len()).rev() {
        put_one(table, hashes[at]);
    }
}

// Makes it a table of this many places, for these hashes.
pub fn rebuild(table: &mut Vec<u64>, hashes: &[u64], places: usize)
    requires items { AreItems hashes.now }
    requires distinct { IsDistinct nat_eq hashes.now }
    requires power { IsPowerOfTwo places }
    requires size { (4 ≤ places) × (places ≤ most_places) }
    requires half { 2 * length hashes.now ≤ places }
    requires capacity { places ≤ vec_capacity table.old }
    ensures tabled { IsTabled hashes.now table.new.items }
    ensures places { length table.new.items ≡ places }
    ensures capacity { vec_capacity table.old ≤ vec_capacity table.new }
{
    table.clear();
    let Ok(()) = table.resize(places, 0) else {
        unreachable!()
    };
    put_each(table.as_mut_slice(), hashes);
}

// Gives the table more places if one hash more would fill more than half of it, and fewer than k are kept.
#[inline(always)]
pub fn make_room(heap: &BinaryHeap<u64>, table: &mut Vec<u64>, k: usize, places: usize)
    requires held { IsHeld k (heap_items heap.now) table.old.items }
    requires places { IsNextPowerOfTwo (2 * k) places }
    requires within { length table.old.items ≤ places }
    requires capacity { places ≤ vec_capacity table.old }
    ensures held { IsHeld k (heap_items heap.now) table.new.items }
    ensures half { heap_len heap.now < k → 2 * (heap_len heap.now + 1) ≤ length table.new.items }
    ensures within { length table.new.items ≤ places }
    ensures capacity { places ≤ vec_capacity table.new }
{
    if table.len() < places && table.len() < 2 * heap.len() + 2 {
        widen(heap, table, k, places);
    }
}

// Gives the table more places.
#[inline(never)]
fn widen(heap: &BinaryHeap<u64>, table: &mut Vec<u64>, k: usize, places: usize)
    requires held { IsHeld k (heap_items heap.now) table.old.items }
    requires some { 1 ≤ heap_len heap.now }
    requires places { IsNextPowerOfTwo (2 * k) places }
    requires capacity { places ≤ vec_capacity table.old }
    ensures held { IsHeld k (heap_items heap.now) table.new.items }
    ensures half { heap_len heap.now < k → 2 * (heap_len heap.now + 1) ≤ length table.new.items }
    ensures within { length table.new.items ≤ places }
    ensures capacity { places ≤ vec_capacity table.new }
{
    let wider = more_places(heap.len(), places);
    rebuild(table, heap.as_slice(), wider);
}

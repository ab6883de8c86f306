//! Rising items go up, half of them at each level.
ghost use Rattle.std.specs.Prelude.{◌≡◌, ◌+◌, ◌*◌, ◌<◌, ◌≤◌, ◌++◌, [], length, drop, All};
ghost use Rattle.std.specs.Prelude.{vec_len, vec_capacity};
ghost use Rattle.std.specs.List.Sorted.{IsNonDecreasing};
ghost use Rattle.sk_quant.specs.Coins.{coin_of};
ghost use Rattle.sk_quant.specs.Held.{halved, carried, held_with, held_with_all};
ghost use Rattle.sk_quant.specs.Order.{in_order};
ghost use Rattle.sk_quant.specs.Stored.{lists_of, held_in, CanCarry};

use crate::coins::Coins;
use crate::ordered::{OrderedBase, put_in_order};

// Keeps of each two items the first, by coin 0, or the second.
fn halve(items: &mut Vec<u64>, coin: usize)
    requires { coin < 2 }
    ensures items { items.new.items ≡ halved coin items.old.items }
    ensures room { vec_capacity items.new ≡ vec_capacity items.old }
{
    let half = items.len() / 2;
    'halve: for i in 0..half {
        items[i] = items[2 * i + coin];
    }
    items.truncate(half);
}

// The greater of two, and 1 if that is the first, or else 0. It takes no branch, which would be guessed wrong half of
// the time.
#[inline(always)]
fn greater_of(first: u64, second: u64) -> (u64, usize)
    ensures first { second < first → result ≡ (first, 1) }
    ensures second { first ≤ second → result ≡ (second, 0) }
    ensures most { result.1 ≤ 1 }
{
    (first.max(second), usize::from(first > second))
}

// Puts the first items in place.
fn put_first(items: &mut [u64], first: &[u64])
    requires { length first.now ≤ length items.old }
    ensures { items.new ≡ first.now ++ drop (length first.now) items.old }
{
    items[..first.len()].copy_from_slice(first);
}

// Puts rising items among others that rise, from the greatest down.
fn merge(items: &mut Vec<u64>, others: &[u64])
    requires items { IsNonDecreasing items.old.items }
    requires others { IsNonDecreasing others.now }
    requires room { vec_len items.old + length others.now ≤ vec_capacity items.old }
    ensures items { items.new.items ≡ in_order (others.now ++ items.old.items) }
    ensures room { vec_capacity items.old ≤ vec_capacity items.new }
{
    let mut left = items.len();
    let mut right = others.len();
    items.extend_from_slice(others).unwrap();
    'merge: while left > 0 && right > 0 {
        let (last, of_items) = greater_of(items[left - 1], others[right - 1]);
        items[left + right - 1] = last;
        left -= of_items;
        right -= 1 - of_items;
    }
    put_first(items, &others[..right]);
}

// Takes rising items up: the half that a coin takes to the first level, and where that was not empty
// on from there, with what it had. What is left of the items means nothing.
fn carry(k: usize, items: &mut Vec<u64>, levels: &mut [Vec<u64>], coins: &mut Coins)
    requires few { vec_len items.old ≤ 2 * k }
    requires rise { IsNonDecreasing items.old.items }
    requires room { 2 * k ≤ vec_capacity items.old }
    requires levels { CanCarry k levels.old coins.old }
    ensures key { coins.new.key ≡ coins.old.key }
    ensures up { (lists_of levels.new, coins.new.taken)
        ≡ carried (coin_of coins.old.key) coins.old.taken items.old.items (lists_of levels.old) }
    ensures room { vec_capacity items.old ≤ vec_capacity items.new }
    ensures rooms { All (λ level. k ≤ vec_capacity level) levels.new }
{
    'levels: for level in levels.iter_mut() {
        halve(items, coins.toss() as usize);
        if level.is_empty() {
            level.extend_from_slice(items).unwrap();
            return;
        }
        merge(items, level);
        level.clear();
    }
}

// Takes the items of a full base up, in order, and leaves it empty.
#[inline(never)]
fn compact(
    k: usize,
    base: &mut Vec<u64>,
    levels: &mut [Vec<u64>],
    coins: &mut Coins,
    ordered: Option<&OrderedBase>,
)
    requires few { vec_len base.old ≤ 2 * k }
    requires room { 2 * k ≤ vec_capacity base.old }
    requires levels { CanCarry k levels.old coins.old }
    ensures key { coins.new.key ≡ coins.old.key }
    ensures up { (lists_of levels.new, coins.new.taken)
        ≡ carried (coin_of coins.old.key) coins.old.taken (in_order base.old.items)
        (lists_of levels.old) }
    ensures empty { base.new.items ≡ [] }
    ensures room { vec_capacity base.old ≤ vec_capacity base.new }
    ensures rooms { All (λ level. k ≤ vec_capacity level) levels.new }
{
    put_in_order(base, ordered);
    carry(k, base, levels, coins);
    base.clear();
}

/// Puts an item into the base, and takes a full base up.
#[inline]
pub fn put(k: usize, base: &mut Vec<u64>, levels: &mut [Vec<u64>], coins: &mut Coins, x: u64)
    requires few { vec_len base.old < 2 * k }
    requires room { 2 * k ≤ vec_capacity base.old }
    requires levels { CanCarry k levels.old coins.old }
    ensures key { coins.new.key ≡ coins.old.key }
    ensures held { held_in base.new levels.new coins.new
        ≡ held_with (coin_of coins.old.key) k (held_in base.old levels.old coins.old) x }
    ensures room { 2 * k ≤ vec_capacity base.new }
    ensures rooms { All (λ level. k ≤ vec_capacity level) levels.new }
{
    base.push_reserved(x);
    if base.len() == 2 * k {
        compact(k, base, levels, coins, None);
    }
}

/// Puts items that at most fill the base into it, and takes a full base up.
pub fn put_all(
    k: usize,
    base: &mut Vec<u64>,
    levels: &mut [Vec<u64>],
    coins: &mut Coins,
    items: &[u64],
    ordered: Option<&OrderedBase>,
)
    requires few { (1 ≤ length items.now) × (vec_len base.old + length items.now ≤ 2 * k) }
    requires room { 2 * k ≤ vec_capacity base.old }
    requires levels { CanCarry k levels.old coins.old }
    ensures key { coins.new.key ≡ coins.old.key }
    ensures held { held_in base.new levels.new coins.new
        ≡ held_with_all (coin_of coins.old.key) k (held_in base.old levels.old coins.old) items.now }
    ensures room { 2 * k ≤ vec_capacity base.new }
    ensures rooms { All (λ level. k ≤ vec_capacity level) levels.new }
{
    base.extend_from_slice(items).unwrap();
    if base.len() == 2 * k {
        compact(k, base, levels, coins, ordered);
    }
}

ghost use Rattle.std.specs.Prelude.{◌≡◌, ◌<◌, ◌≤◌, length, vec_len, IfOk};
ghost use Rattle.std.specs.Int.{abs_diff};
ghost use Rattle.sk_quant.specs.Held.{ranked};
ghost use Rattle.sk_quant.specs.Limits.{least_quantile_k, most_quantile_k, key_end, most_items};
ghost use Rattle.sk_quant.specs.Ranks.{rank_of, rank_error};

use rand_core::utils::NextWord;
use sk_model::OutOfMemory;
use sk_quant::limits::{KEY_END, LEAST_QUANTILE_K, MOST_QUANTILE_K};
use sk_quant::{Quant, words_of};
use std::alloc::Global;
use std::process::Abort;
use std::test::Fail;

// How many items a sketch was given, how many of them are below a number by what it holds, and by how
// much that may be off.
#[derive(Clone, Copy, Debug, PartialEq, Eq)]
struct Rank {
    n: u64,
    below: u64,
    within: u64,
}

// What the sketch of a list answers. Its clauses are what a caller concludes from those of the calls.
fn rank_in(alloc: Global, k: u32, key: u64, items: &[u64], x: u64) -> Result<Rank, OutOfMemory>
    requires least { least_quantile_k ≤ k }
    requires most { k ≤ most_quantile_k }
    requires key { key < key_end }
    requires few { length items.now ≤ most_items }
    ensures n { IfOk result (λ r. r.n ≡ length items.now) }
    ensures below { IfOk result (λ r. r.below ≡ ranked x k key items.now) }
    ensures within { IfOk result (λ r. r.within ≡ rank_error (length items.now) k) }
    ensures near { IfOk result (λ r. abs_diff r.below (rank_of x items.now) ≤ r.within) }
{
    let mut sketch = Quant::new(alloc, k, key)?;
    'feed: for item in items {
        sketch.update(*item);
    }
    Ok(Rank {
        n: sketch.len(),
        below: sketch.below(x),
        within: sketch.error(),
    })
}

// Expects what the sketch of a list answers: how many items it was given, how many are below x, and within what.
fn expect(
    rt: &impl Abort,
    sketch: (Global, u32, u64),
    items: &[u64],
    x: u64,
    want: (u64, u64, u64),
) -> Result<(), OutOfMemory>
    requires least { least_quantile_k ≤ sketch.1 }
    requires most { sketch.1 ≤ most_quantile_k }
    requires key { sketch.2 < key_end }
    requires few { length items.now ≤ most_items }
{
    let rank = rank_in(sketch.0, sketch.1, sketch.2, items, x)?;
    assert_eq!(rt; (rank.n, rank.below, rank.within), want);
    Ok(())
}

// The same of the middle of 1 to 1,000, of which it says no more than its error allows.
fn expect_middle(
    rt: &impl Abort,
    sketch: (Global, u32, u64),
    items: &[u64],
    want: (u64, u64),
) -> Result<(), OutOfMemory>
    requires least { least_quantile_k ≤ sketch.1 }
    requires most { sketch.1 ≤ most_quantile_k }
    requires key { sketch.2 < key_end }
    requires few { length items.now ≤ most_items }
{
    let rank = rank_in(sketch.0, sketch.1, sketch.2, items, 501)?;
    assert_eq!(rt; (rank.n, rank.below, rank.within), (1_000, want.0, want.1));
    assert!(rt; rank.below.abs_diff(500) <= rank.within);
    Ok(())
}

#[test]
fn small_lists_have_one_answer_whichever_way_the_coin_falls(rt: HostRuntime) -> Result<(), Fail> {
    let alloc = rt.alloc();
    for key in [0u32, 1] {
        let key = u64::from(key);
        expect(&rt, (alloc, 2, key), &[], 3, (0, 0, 0))?;
        expect(&rt, (alloc, 2, key), &[1, 2, 3], 3, (3, 2, 0))?;
        expect(&rt, (alloc, 2, key), &[1, 2, 3, 4], 3, (4, 2, 1))?;
    }
    Ok(())
}

// The first coin of key 0 takes 1 and 3 of 1, 2, 3, 4, that of key 1 takes 2 and 4.
#[test]
fn the_coin_of_the_key_decides(rt: HostRuntime) -> Result<(), Fail> {
    let alloc = rt.alloc();
    expect(&rt, (alloc, 2, 0), &[4, 2, 3, 1], 2, (4, 2, 1))?;
    expect(&rt, (alloc, 2, 1), &[4, 2, 3, 1], 2, (4, 0, 1))?;
    Ok(())
}

// The numbers from 1 on.
fn numbers(alloc: Global, count: u32) -> Result<Vec<u64>, OutOfMemory>
    ensures { IfOk result (λ v. vec_len v ≡ count) }
{
    let mut items = Vec::new(alloc);
    'push: for i in 0..count {
        items.push(u64::from(i) + 1)?;
    }
    Ok(items)
}

// Squares modulo 1009, so that many stand more than once.
fn squares(alloc: Global, count: u32) -> Result<Vec<u64>, OutOfMemory>
    ensures { IfOk result (λ v. vec_len v ≡ count) }
{
    let mut items = Vec::new(alloc);
    'push: for i in 0..count {
        items.push(u64::from(i) * u64::from(i) % 1_009)?;
    }
    Ok(items)
}

// Of 1 to 1,000 exactly 500 are below 501. Another program computed what the sketches answer.
#[test]
fn a_thousand_numbers_under_ten_keys(rt: HostRuntime) -> Result<(), Fail> {
    let alloc = rt.alloc();
    let items = numbers(alloc, 1_000)?;
    let below = [504, 504, 496, 496, 504, 496, 496, 504, 496, 504];
    for key in 0..10u32 {
        let want = (below[key as usize], 17);
        let key = u64::from(key);
        expect_middle(&rt, (alloc, 2, key), &items, (512, 1_780))?;
        expect_middle(&rt, (alloc, 64, key), &items, want)?;
    }
    Ok(())
}

// Expects of so many squares how many are below x, and within what.
fn expect_squares(
    rt: &impl Abort,
    sketch: (Global, u32, u64),
    count: u32,
    x: u64,
    want: (u64, u64),
) -> Result<(), OutOfMemory>
    requires least { least_quantile_k ≤ sketch.1 }
    requires most { sketch.1 ≤ most_quantile_k }
    requires key { sketch.2 < key_end }
    requires few { count ≤ most_items }
{
    let items = squares(sketch.0, count)?;
    expect(rt, sketch, &items, x, (u64::from(count), want.0, want.1))
}

// Another program computed these answers.
#[test]
fn squares_that_repeat(rt: HostRuntime) -> Result<(), Fail> {
    let alloc = rt.alloc();
    let sketch = (alloc, LEAST_QUANTILE_K, 5);
    expect_squares(&rt, sketch, 300, 400, (276, 485))?;
    let sketch = (alloc, 2, KEY_END - 1);
    expect_squares(&rt, sketch, 1_023, 500, (735, 1_793))?;
    expect_squares(&rt, (alloc, 5, 2), 777, 100, (28, 493))?;
    expect_squares(&rt, (alloc, 64, 1), 5_000, 300, (1_533, 209))?;
    expect_squares(&rt, (alloc, 128, 0), 20_000, 700, (13_740, 496))?;
    let sketch = (alloc, MOST_QUANTILE_K, 9);
    expect_squares(&rt, sketch, 20_000, 123, (2_631, 4))?;
    Ok(())
}

fn tosses(rt: &impl Abort, key: u64, expected: &[u32]) {
    let mut words = words_of(key);
    'toss: for coin in expected {
        assert_eq!(rt; words.next_word() % 2, *coin);
    }
}

// Another ChaCha8 computed these, which gives the published key stream of zeros for key 0.
#[test]
fn coins_are_the_lowest_bits_of_the_key_stream(rt: HostRuntime) {
    tosses(
        &rt,
        0,
        &[0, 1, 1, 1, 0, 0, 0, 1, 0, 1, 1, 1, 1, 0, 0, 0, 0, 0, 1, 1],
    );
    tosses(
        &rt,
        7,
        &[1, 0, 1, 0, 0, 1, 0, 0, 1, 0, 0, 1, 1, 0, 0, 0, 1, 1, 0, 0],
    );
    tosses(
        &rt,
        KEY_END - 1,
        &[1, 0, 1, 0, 1, 1, 1, 1, 1, 1, 0, 1, 0, 1, 1, 0, 1, 0, 0, 0],
    );
}

fn is_sent<T: Send>(_: &T) {}

#[test]
fn a_sketch_goes_from_thread_to_thread(rt: HostRuntime) -> Result<(), Fail> {
    let sketch = Quant::new(rt.alloc(), LEAST_QUANTILE_K, 0)?;
    is_sent(&sketch);
    Ok(())
}

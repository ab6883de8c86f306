// The sketch of the k smallest in its forms: plain, as an array, and as a heap with a table.
ghost use Rattle.std.specs.Prelude.{◌<◌, ◌≤◌};
ghost use Rattle.sk_model.specs.Width.{IsItem};
ghost use Rattle.sk_model.specs.Limits.{least_k, most_k};

use super::expect;
use sk_heap::HeapTheta;
use sk_model::plain;
use sk_theta::{BadShape, ITEM_END, Reply, Shape, Theta, unpack};
use std::alloc::Global;
use std::test::Fail;

#[test]
fn plain_lists_and_estimates_are_those_worked_by_hand(rt: HostRuntime) -> Result<(), Fail> {
    let alloc = rt.alloc();
    let rows: [(usize, &[u64], &[u64], (u128, u64)); 4] = [
        (2, &[5, 3, 5], &[3, 5], (9_223_372_036_854_775_808, 5)),
        (2, &[1, 2], &[1, 2], (9_223_372_036_854_775_808, 2)),
        (2, &[5, 3], &[3, 5], (9_223_372_036_854_775_808, 5)),
        (4, &[], &[], (0, 1)),
    ];
    for (k, hashes, kept, estimate) in rows {
        expect(&rt, plain::k_smallest(alloc, k, hashes)?.as_slice(), kept);
        expect(&rt, plain::estimate(alloc, k, hashes)?, estimate);
    }
    Ok(())
}

#[test]
fn two_of_two_give_the_upper_one_as_theta(rt: HostRuntime) -> Result<(), Fail> {
    let mut sketch = Theta::new(rt.alloc(), 2)?;
    expect(&rt, (sketch.count(), sketch.theta()), (0, ITEM_END));
    assert!(rt; sketch.update(5));
    assert!(rt; sketch.update(3));
    assert!(rt; !sketch.update(3));
    expect(&rt, sketch.fraction(), (9_223_372_036_854_775_808, 5));
    expect(&rt, sketch.list()?.as_slice(), [3, 5].as_slice());
    Ok(())
}

#[test]
fn a_word_reads_back(rt: HostRuntime) -> Result<(), Fail> {
    let mut sketch = Theta::new(rt.alloc(), 2)?;
    sketch.update(1);
    expect(&rt, sketch.packed(), 1);
    let (count, theta) = (1, ITEM_END);
    expect(&rt, unpack(sketch.packed(), 2), Reply { count, theta });
    sketch.update(2);
    expect(&rt, sketch.packed(), 2);
    let (count, theta) = (2, 2);
    expect(&rt, unpack(sketch.packed(), 2), Reply { count, theta });
    Ok(())
}

// No full list has a smaller theta: the word is k, which is not a count.
#[test]
fn the_least_theta_is_k(rt: HostRuntime) -> Result<(), Fail> {
    for k in [2, 3, 64, 1_000] {
        let mut array = Theta::new(rt.alloc(), k)?;
        let mut heap = HeapTheta::new(rt.alloc(), k)?;
        for hash in (1..u64::from(k) + 1).rev() {
            array.update(hash);
            heap.update(hash);
        }
        let theta = u64::from(k);
        expect(
            &rt,
            (array.count(), array.theta(), array.packed()),
            (k, theta, theta),
        );
        expect(&rt, heap.packed(), theta);
        expect(&rt, unpack(theta, k), Reply { count: k, theta });
        let numerator = u128::from(k - 1) * u128::from(ITEM_END);
        expect(&rt, array.fraction(), (numerator, theta));
    }
    Ok(())
}

#[test]
fn a_reply_gives_the_fraction(rt: HostRuntime) {
    let reply = Reply { count: 2, theta: 5 };
    expect(&rt, reply.fraction(2), (9_223_372_036_854_775_808, 5));
    expect(&rt, reply.fraction(3), (2, 1));
}

#[test]
fn a_batch_counts_a_repeat_once(rt: HostRuntime) -> Result<(), Fail> {
    let mut sketch = Theta::new(rt.alloc(), 2)?;
    sketch.merge(&[3, 5, 3]);
    expect(&rt, (sketch.count(), sketch.theta()), (2, 5));
    Ok(())
}

#[test]
fn the_first_number_out_of_its_limits_is_the_error(rt: HostRuntime) {
    assert!(rt; Shape::new(1, 0, 0, 0, true).err() == Some(BadShape::K));
    assert!(rt; Shape::new(2, 0, 0, 0, true).err() == Some(BadShape::B));
    assert!(rt; Shape::new(2, 1, 65, 0, true).err() == Some(BadShape::N));
    let Ok(shape) = Shape::new(1_048_576, 4_096, 64, 7, true) else {
        return
    };
    expect(
        &rt,
        (shape.k(), shape.b(), shape.n()),
        (1_048_576, 4_096, 64),
    );
    expect(&rt, (shape.seed(), shape.eager()), (7, true));
}

#[test]
fn a_worked_sketch_shows_its_heap_and_table(rt: HostRuntime) -> Result<(), Fail> {
    let mut sketch = HeapTheta::new(rt.alloc(), 2)?;
    expect(&rt, (sketch.count(), sketch.theta()), (0, ITEM_END));
    assert!(rt; sketch.update(5));
    assert!(rt; sketch.update(3));
    assert!(rt; sketch.update(4));
    assert!(rt; !sketch.update(3));
    expect(&rt, sketch.heap(), [4, 3].as_slice());
    expect(&rt, sketch.table(), [0, 4, 5, 0].as_slice());
    assert!(rt; !sketch.update(8));
    expect(&rt, sketch.fraction(), (9_223_372_036_854_775_808, 4));
    expect(&rt, sketch.list()?.as_slice(), [3, 4].as_slice());
    expect(
        &rt,
        unpack(sketch.packed(), 2),
        Reply { count: 2, theta: 4 },
    );
    expect(&rt, sketch.k(), 2);
    Ok(())
}

// In a table of 4, hashes 1, 3 and 8 have the home 1, and 2 has the home 3.
#[test]
fn entries_move_back_after_one_that_goes(rt: HostRuntime) -> Result<(), Fail> {
    let mut sketch = HeapTheta::new(rt.alloc(), 2)?;
    sketch.merge(&[8, 3]);
    expect(&rt, sketch.table(), [0, 9, 4, 0].as_slice());
    assert!(rt; sketch.update(1));
    expect(&rt, sketch.table(), [0, 2, 4, 0].as_slice());
    assert!(rt; sketch.update(2));
    expect(&rt, sketch.table(), [0, 2, 0, 3].as_slice());
    assert!(rt; !sketch.update(1));
    Ok(())
}

// In a table of 8, hashes 5 and 19 have the home 2, and 10 and 3 stand at theirs, 4 and 5.
#[test]
fn entries_move_back_before_one_that_stays(rt: HostRuntime) -> Result<(), Fail> {
    let mut sketch = HeapTheta::new(rt.alloc(), 3)?;
    sketch.merge(&[19, 5, 10]);
    expect(&rt, sketch.table(), [0, 0, 20, 6, 11, 0, 0, 0].as_slice());
    assert!(rt; sketch.update(3));
    expect(&rt, sketch.table(), [0, 0, 6, 0, 11, 4, 0, 0].as_slice());
    Ok(())
}

#[test]
fn joined_and_cleared_sketches_are_of_their_lists(rt: HostRuntime) -> Result<(), Fail> {
    let mut sketch = HeapTheta::new(rt.alloc(), 3)?;
    let mut other = HeapTheta::new(rt.alloc(), 3)?;
    sketch.merge(&[9, 2]);
    other.merge(&[7, 2, 4, 11]);
    sketch.join(&other);
    expect(&rt, sketch.list()?.as_slice(), [2, 4, 7].as_slice());
    expect(&rt, other.list()?.as_slice(), [2, 4, 7].as_slice());
    sketch.clear();
    expect(&rt, (sketch.count(), sketch.theta()), (0, ITEM_END));
    sketch.join(&other);
    expect(&rt, sketch.list()?.as_slice(), [2, 4, 7].as_slice());
    Ok(())
}

// The next of a fixed sequence (Knuth's MMIX constants), an item from 1 to a bound.
fn draw(state: &mut u64, bound: u64) -> u64
    ensures { IsItem result }
{
    *state = state
        .wrapping_mul(6_364_136_223_846_793_005)
        .wrapping_add(1_442_695_040_888_963_407);
    (*state ^ *state >> 32) % bound.clamp(1, ITEM_END - 1) + 1
}

// Whether the array, one by one and in batches, and the heap, over random numbers up to the bound,
// are the plain form of them.
fn agrees(alloc: Global, k: u32, bound: u64, batches: u32, state: &mut u64) -> Result<bool, Fail>
    requires least { least_k ≤ k }
    requires most { k ≤ most_k }
{
    let mut array = Theta::new(alloc, k)?;
    let mut batched = Theta::new(alloc, k)?;
    let mut heap = HeapTheta::new(alloc, k)?;
    let mut hashes = Vec::new(alloc);
    for _ in 0..batches {
        let batch = [draw(state, bound), draw(state, bound), draw(state, bound)];
        for hash in batch {
            if heap.update(hash) != array.update(hash) {
                return Ok(false);
            }
            hashes.push(hash)?;
        }
        batched.merge(&batch);
    }
    let kept = plain::k_smallest(alloc, k as usize, &hashes)?;
    let estimate = plain::estimate(alloc, k as usize, &hashes)?;
    Ok(
        array.list()?.as_slice() == kept.as_slice()
            && batched.list()?.as_slice() == kept.as_slice()
            && heap.list()?.as_slice() == kept.as_slice()
            && array.fraction() == estimate
            && heap.fraction() == estimate
            && heap.packed() == array.packed(),
    )
}

#[test]
fn random_lists_give_what_the_plain_form_gives(rt: HostRuntime) -> Result<(), Fail> {
    let alloc = rt.alloc();
    let mut state = 1;
    for bound in [1, 2, 5, 20, 100, 2_000, 1_000_000, ITEM_END] {
        assert!(rt; agrees(alloc, 2, bound, 100, &mut state)?);
        assert!(rt; agrees(alloc, 3, bound, 100, &mut state)?);
        assert!(rt; agrees(alloc, 16, bound, 40, &mut state)?);
        assert!(rt; agrees(alloc, 64, bound, 200, &mut state)?);
        assert!(rt; agrees(alloc, 500, bound, 667, &mut state)?);
    }
    assert!(rt; agrees(alloc, 4_096, 6_000, 3_000, &mut state)?);
    Ok(())
}

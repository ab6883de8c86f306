// Readers of versions, and the ranks and thetas that they read.
ghost use Rattle.std.specs.Prelude.{[], ◌∷◌, ◌≡◌, ◌≢◌, ◌+◌, ◌<◌, ◌≤◌, ◌^◌, length, Some, false, IfOk};
ghost use Rattle.sk_model.specs.Width.{IsItem, AreItems};
ghost use Rattle.sk_quant.specs.Limits.{least_quantile_k, most_quantile_k, key_end};
ghost use Rattle.sk_snap.specs.History.{Taken, entries_in, name_of};

use super::expect;
use sk_compose::{Buffer, Composable};
use sk_heap::HeapTheta;
use sk_model::OutOfMemory;
use sk_model::limits::ITEM_END;
use sk_snap::{
    Below, JoinInto, Known, QuantReader, QuantSetup, Rank, ThetaReader, VersionedQuant,
    VersionedTheta,
};
use std::alloc::Global;
use std::process::Abort;
use std::sync::Wait;
use std::test::Fail;
use std::thread;

// Merges two items as one batch, and gives what that made known.
fn merge_two<R: Wait + Drop, W: Wait + Abort>(
    rt: &W,
    alloc: Global,
    sketch: &mut VersionedQuant<R>,
    first: u64,
    second: u64,
) -> Result<Known, OutOfMemory>
    requires first { IsItem first }
    requires second { IsItem second }
    ensures told { IfOk result (λ told. name_of told.book ≡ name_of sketch.old.known.book) }
    ensures name { IfOk result (λ _. name_of sketch.new.known.book ≡ name_of sketch.old.known.book) }
{
    assert!(rt; sketch.len() < 1_000);
    let mut batch = Buffer::new(alloc, 2)?;
    batch.push(first);
    batch.push(second);
    Composable::merge(sketch, rt, 0, &batch)?;
    Ok(Composable::told(sketch))
}

// Offers a batch after another one was refused: it is not merged.
fn offer_another<R: Wait + Drop, W: Wait>(
    rt: &W,
    sketch: &mut VersionedQuant<R>,
    batch: &Buffer,
) -> bool
    requires room { length (entries_in sketch.old.known) + length batch.now.items ≤ 2 ^ 46 }
    requires other { (other : Taken) × (sketch.old.refused ≡ Some other)
        × (other.items ≢ batch.now.items) }
    ensures refused { result ≡ false }
    ensures stays { sketch.new.refused ≡ sketch.old.refused }
    ensures known { sketch.new.known ≡ sketch.old.known }
{
    Composable::merge(sketch, rt, 0, batch).is_ok()
}

// Merges two batches of two items, reads below a number after each, and expects these ranks.
fn expect_ranks<R: Wait + Abort>(
    rt: &R,
    alloc: Global,
    setup: QuantSetup,
    items: [u64; 4],
    x: u64,
    want: [Rank; 2],
) -> Result<(), OutOfMemory>
    requires least { least_quantile_k ≤ setup.k }
    requires most { setup.k ≤ most_quantile_k }
    requires key { setup.key < key_end }
    requires items { AreItems items }
{
    let (mut sketch, mut reader) = VersionedQuant::new(alloc, rt, setup)?;
    expect(rt, reader.read(rt, Below { x }), rank(0, 0, 0));
    let told = merge_two(rt, alloc, &mut sketch, items[0], items[1])?;
    reader.learn(told);
    expect(rt, reader.read(rt, Below { x }), want[0]);
    let told = merge_two(rt, alloc, &mut sketch, items[2], items[3])?;
    reader.learn(told);
    expect(rt, reader.read(rt, Below { x }), want[1]);
    expect(rt, Composable::packed(&sketch), 4);
    Ok(())
}

fn rank(n: u64, below: u64, within: u64) -> Rank {
    Rank { n, below, within }
}

#[test]
fn a_reader_reads_what_it_learnt(rt: HostRuntime) -> Result<(), Fail> {
    let alloc = rt.alloc();
    let rows = [
        (2, 0, [1, 2, 3, 4], 3, [rank(2, 2, 0), rank(4, 2, 1)]),
        (2, 1, [1, 2, 3, 4], 3, [rank(2, 2, 0), rank(4, 2, 1)]),
        (2, 0, [4, 2, 3, 1], 2, [rank(2, 0, 0), rank(4, 2, 1)]),
        (2, 1, [4, 2, 3, 1], 2, [rank(2, 0, 0), rank(4, 0, 1)]),
        (4, 0, [1, 2, 3, 4], 3, [rank(2, 2, 0), rank(4, 2, 0)]),
    ];
    for (k, key, items, x, want) in rows {
        assert!(rt; (2..=4_096).contains(&k) && key < 2);
        let [first, second, third, fourth]: [u64; 4] = items;
        let small = 1..5;
        assert!(rt; small.contains(&first) && small.contains(&second));
        assert!(rt; small.contains(&third) && small.contains(&fourth));
        let items = [first, second, third, fourth];
        expect_ranks(&rt, alloc, QuantSetup { k, key }, items, x, want)?;
    }
    Ok(())
}

// Merges 1 and 2, then 3 and 4.
fn write<R: Wait + Drop, W: Wait + Abort>(
    rt: &W,
    alloc: Global,
    mut sketch: VersionedQuant<R>,
) -> Result<(VersionedQuant<R>, Known), OutOfMemory>
    ensures told { IfOk result (λ r. name_of r.1.book ≡ name_of sketch.known.book) }
{
    merge_two(rt, alloc, &mut sketch, 1, 2)?;
    let told = merge_two(rt, alloc, &mut sketch, 3, 4)?;
    Ok((sketch, told))
}

// Reads below 3.
fn look<W: Wait>(rt: &W, mut reader: QuantReader) -> (QuantReader, Rank)
    ensures name { result.0.known.book ≡ reader.known.book }
{
    let rank = reader.read(rt, Below { x: 3 });
    (reader, rank)
}

#[test]
fn a_reader_runs_next_to_a_writer(rt: HostRuntime) -> Result<(), Fail> {
    let (sketch, reader) = VersionedQuant::new(rt.alloc(), &rt, QuantSetup { k: 4, key: 0 })?;
    let (written, (mut reader, seen)) = thread::join(
        &rt,
        || write(&rt, rt.alloc(), sketch),
        || look(&rt, reader),
    );
    let (_sketch, told) = written?;
    assert!(rt; seen == rank(0, 0, 0) || seen == rank(2, 2, 0) || seen == rank(4, 2, 0));
    reader.learn(told);
    expect(&rt, reader.read(&rt, Below { x: 3 }), rank(4, 2, 0));
    Ok(())
}

// Reads a version of a sketch of the 2 smallest into an empty sketch, and expects this count and theta.
fn expect_theta<R: Wait + Abort>(
    rt: &R,
    alloc: Global,
    reader: &mut ThetaReader,
    want: (u64, u32, u64),
) -> Result<(), OutOfMemory>
    requires k { reader.old.numbers ≡ 2 ∷ [] }
    ensures name { reader.new.known.book ≡ reader.old.known.book }
    ensures numbers { reader.new.numbers ≡ reader.old.numbers }
{
    let sketch = HeapTheta::new(alloc, 2)?;
    let (sketch, n) = reader.read(rt, JoinInto { sketch });
    expect(rt, (n, sketch.count(), sketch.theta()), want);
    Ok(())
}

#[test]
fn a_reader_joins_the_smallest(rt: HostRuntime) -> Result<(), Fail> {
    let alloc = rt.alloc();
    let (mut sketch, mut reader) = VersionedTheta::new(alloc, &rt, 2)?;
    expect_theta(&rt, alloc, &mut reader, (0, 0, ITEM_END))?;
    let mut batch = Buffer::new(alloc, 3)?;
    batch.push(5);
    batch.push(3);
    batch.push(5);
    Composable::merge(&mut sketch, &rt, 0, &batch)?;
    reader.learn(Composable::told(&mut sketch));
    expect_theta(&rt, alloc, &mut reader, (3, 2, 5))?;
    expect(&rt, Composable::hint(&sketch), 5);
    Ok(())
}

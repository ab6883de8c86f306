//! The short programs of the library's callers, run.
ghost use Rattle.std.specs.Prelude.{◌≡◌, ◌≤◌, [], length, All, IfOk};
ghost use Rattle.sk_model.specs.Entries.{items_of_entries};
ghost use Rattle.sk_model.specs.Limits.{least_k, most_k, most_kept};
ghost use Rattle.sk_model.specs.Width.{AreItems};
ghost use Rattle.sk_theta.specs.Kept.{StandsFor};

use super::expect;
use sk_cms::{CmsSetup, Tally};
use sk_core::{Answer, Event, State};
use sk_heap::HeapTheta;
use sk_io::{MemSink, MemSource};
use sk_model::OutOfMemory;
use sk_tenant::Add;
use sk_theta::{Reply, Shape, unpack};
use sk_window::{Advance, Frame, Panes, Started};
use std::alloc::Global;
use std::test::Fail;
use uses::{
    Measured, count_streams, count_two_tenants, estimate_again, estimate_items, estimate_of_both,
    feed_and_reply, finish_again, greatest_item, how_often, list_of_both, measure_text,
    rank_source, replay, word_with_batch,
};

#[tactic(auto, unfolding(sk_model::specs::Entries::items_of_entries))]
fn sketch(alloc: Global, k: u32) -> Result<HeapTheta, OutOfMemory>
    requires least { least_k ≤ k }
    requires most { k ≤ most_k }
    ensures { IfOk result (λ s. StandsFor s (items_of_entries [])) }
{
    HeapTheta::new(alloc, k)
}

// A hundred and fifty numbers, from this one on.
fn numbers_from(alloc: Global, first: u64) -> Result<Vec<u64>, OutOfMemory>
    requires least { 1 ≤ first }
    requires most { first ≤ 1000 }
    ensures items { IfOk result (λ numbers. AreItems numbers.items) }
    ensures few { IfOk result (λ numbers. length numbers.items ≤ most_kept) }
{
    let mut numbers = Vec::new(alloc);
    'number: for number in first..first + 150 {
        numbers.push(number)?;
    }
    Ok(numbers)
}

// Four streams, each of which shares a third with the next.
fn four_streams(alloc: Global) -> Result<Vec<Vec<u64>>, OutOfMemory>
    ensures count { IfOk result (λ streams. length streams.items ≡ 4) }
    ensures items { IfOk result (λ streams. All (λ stream. AreItems stream.items) streams.items) }
    ensures room { IfOk result (λ streams. All (λ stream. length stream.items ≤ most_kept) streams.items) }
{
    let mut streams = Vec::new(alloc);
    'stream: for i in 0..4 {
        streams.push(numbers_from(alloc, 100 * i + 1)?)?;
    }
    Ok(streams)
}

#[test]
fn sketches_join_and_are_filled_again(rt: HostRuntime) -> Result<(), Fail> {
    let alloc = rt.alloc();
    expect(&rt, estimate_items(alloc, 8, &[5, 3, 9, 3])?, (3, 1));
    expect(
        &rt,
        estimate_of_both(alloc, 8, &[5, 3, 9], &[3, 7])?,
        (4, 1),
    );
    let mut one = HeapTheta::new(alloc, 8)?;
    let mut other = HeapTheta::new(alloc, 8)?;
    one.merge(&[5, 3, 9]);
    other.merge(&[3, 7]);
    expect(
        &rt,
        list_of_both(alloc, &one, &other)?.as_slice(),
        [3, 5, 7, 9].as_slice(),
    );
    expect(&rt, estimate_again(&mut one, &[8, 6]), (2, 1));
    Ok(())
}

// Six hundred numbers, the greatest first: they are merged in two pieces.
fn falling(alloc: Global) -> Result<Vec<u64>, OutOfMemory>
    ensures { IfOk result (λ numbers. AreItems numbers.items) }
{
    let mut numbers = Vec::new(alloc);
    'number: for i in 0..600 {
        numbers.push(600 - i)?;
    }
    Ok(numbers)
}

#[test]
fn batches_are_merged_into_a_sorted_array(rt: HostRuntime) -> Result<(), Fail> {
    let alloc = rt.alloc();
    // The word of few items is their count, and each counts once.
    expect(
        &rt,
        word_with_batch(alloc, 8, &[5, 3, 9, 3], &[7, 5, 7])?,
        4,
    );
    // That of more is the greatest of the k least.
    expect(&rt, word_with_batch(alloc, 3, &[9, 2], &[7, 2, 4, 11])?, 7);
    expect(&rt, word_with_batch(alloc, 3, &[2, 4, 7], &[9, 8])?, 7);
    let numbers = falling(alloc)?;
    expect(
        &rt,
        word_with_batch(alloc, 4, numbers.as_slice(), &[2, 1])?,
        4,
    );
    expect(
        &rt,
        word_with_batch(alloc, 550, &[], numbers.as_slice())?,
        550,
    );
    Ok(())
}

#[test]
fn four_threads_count_as_one(rt: HostRuntime) -> Result<(), Fail> {
    let alloc = rt.alloc();
    let Ok(shape) = Shape::new(32, 4, 4, 0, false) else {
        panic!(rt; "no shape");
    };
    let streams = four_streams(alloc)?;
    let counted = count_streams(&rt, alloc, &shape, sketch(alloc, 32)?, &streams, 16)?;
    // The least 32 items are 1 to 32, so theta is k.
    let want = Reply {
        count: 32,
        theta: 32,
    };
    expect(&rt, unpack(counted.last, 32), want);
    expect(&rt, counted.meanwhile.len(), 16);
    Ok(())
}

#[test]
fn four_threads_say_how_often(rt: HostRuntime) -> Result<(), Fail> {
    let alloc = rt.alloc();
    let Ok(shape) = Shape::new(32, 4, 4, 0, false) else {
        panic!(rt; "no shape");
    };
    let setup = CmsSetup {
        rows: 4,
        width: 4_096,
    };
    let streams = four_streams(alloc)?;
    let often = how_often(&rt, alloc, &shape, setup, streams.as_slice(), 120)?;
    // Two of the streams have it.
    expect(&rt, often.last, Tally { n: 600, least: 2 });
    assert!(&rt; often.meanwhile.least <= 2);
    Ok(())
}

#[test]
fn a_sketch_of_ones_own_finds_the_greatest(rt: HostRuntime) -> Result<(), Fail> {
    let Ok(shape) = Shape::new(2, 2, 1, 0, false) else {
        panic!(rt; "no shape");
    };
    let greatest = greatest_item(&rt, rt.alloc(), &shape, &[5, 9, 3, 9, 1])?;
    expect(&rt, greatest, 9);
    Ok(())
}

#[test]
fn a_batch_goes_round(rt: HostRuntime) -> Result<(), Fail> {
    let mut state = State::new(rt.alloc(), 2, 1, 1)?;
    let events = [
        Event::Offer(0, 5),
        Event::Look(0),
        Event::Swap(0),
        Event::Hand(0),
        Event::Find(0),
        Event::Take(0),
        Event::Publish(0),
        Event::Ask(0),
        Event::Hand(0),
    ];
    let answers = replay(rt.alloc(), &mut state, &events)?;
    let want = [
        Answer::Kept,
        Answer::Hint(1 << 63),
        Answer::Swapped,
        Answer::Handed(1),
        Answer::Waiting,
        Answer::Took(1),
        Answer::Published(1),
        Answer::Estimate(1, 1),
    ];
    assert_eq!(rt; answers.as_slice(), want.as_slice());
    Ok(())
}

#[test]
fn a_text_comes_three_bytes_at_a_time(rt: HostRuntime) -> Result<(), Fail> {
    let text = b"one\ntwo words\r\n\nlast".to_vec(rt.alloc())?;
    let want = Measured {
        lines: 4,
        longest: 9,
    };
    expect(&rt, measure_text(rt.alloc(), text), Ok(want));
    Ok(())
}

#[test]
fn numbers_are_ranked_by_four_updaters(rt: HostRuntime) -> Result<(), Fail> {
    let alloc = rt.alloc();
    let text = b"5\n1\n4\n\n1\n3\n".to_vec(alloc)?;
    let mut input = MemSource::new(text, 3, Vec::new(alloc));
    let mut out = MemSink::new(alloc, 100, 7, Vec::new(alloc))?;
    // Of the numbers below 3.
    assert_eq!(rt; rank_source(&rt, alloc, 4, 4, &mut input, &mut out), Ok(()));
    assert_eq!(rt; out.written(), b"n 5 below 2 within 0\n".as_slice());
    Ok(())
}

fn two_names(alloc: Global) -> Result<Vec<String>, OutOfMemory>
    ensures { IfOk result (λ names. length names.items ≡ 2) }
{
    let mut names = Vec::with_capacity(alloc, 2)?;
    names.push(String::from_str(alloc, "a")?)?;
    names.push(String::from_str(alloc, "b")?)?;
    Ok(names)
}

#[test]
fn two_tenants_are_counted_alone(rt: HostRuntime) -> Result<(), Fail> {
    let alloc = rt.alloc();
    let shape = Shape::new(8, 4, 2, 0, false)?;
    let first = [(0, 5), (1, 7), (0, 9)];
    let second = [(0, 5), (1, 8), (1, 11), (1, 7)];
    let names = two_names(alloc)?;
    let answered = count_two_tenants(&rt, alloc, names, &shape, 2, &first, &second)?;
    expect(&rt, answered.words, (2, 3));
    expect(&rt, answered.second.last().copied(), Some(Add::Over));
    Ok(())
}

// Interval 0 is fed in threads between two moments of which the second ends it.
#[test]
fn four_threads_feed_an_interval(rt: HostRuntime) -> Result<(), Fail> {
    let alloc = rt.alloc();
    let Ok(shape) = Shape::new(1_024, 16, 4, 0, false) else {
        panic!(rt; "no shape");
    };
    let frame = Frame { span: 10, last: 2 };
    let streams = four_streams(alloc)?;
    let Started {
        mut panes,
        updaters,
    } = Panes::new(&rt, alloc, shape, frame)?;
    let Advance::Same(updaters) = panes.advance(9, updaters) else {
        panic!(rt; "another interval");
    };
    let (meanwhile, updaters) = feed_and_reply(&rt, &mut panes, updaters, streams.as_slice())?;
    // Each buffer has room for 16 items of the 150 that each thread keeps.
    assert!(&rt; 322 <= meanwhile.count && meanwhile.count <= 450);
    let Advance::Moved(last, _updaters) = panes.advance(10, updaters) else {
        panic!(rt; "no other interval");
    };
    expect(&rt, last.count, 450);
    Ok(())
}

#[test]
fn the_last_interval_is_closed(rt: HostRuntime) -> Result<(), Fail> {
    let alloc = rt.alloc();
    let Ok(shape) = Shape::new(1_024, 16, 4, 0, false) else {
        panic!(rt; "no shape");
    };
    let frame = Frame { span: 10, last: 2 };
    let streams = four_streams(alloc)?;
    let Started {
        mut panes,
        updaters,
    } = Panes::new(&rt, alloc, shape, frame)?;
    let (_meanwhile, updaters) = feed_and_reply(&rt, &mut panes, updaters, streams.as_slice())?;
    expect(&rt, finish_again(&mut panes, updaters)?.count, 450);
    Ok(())
}

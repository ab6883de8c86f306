// Rankings over streams in memory, and a reader beside four updaters that run.
ghost use Rattle.std.specs.Prelude.{◌≡◌, IfOk, IfSome};
ghost use Rattle.sk_rank.specs.Plans.{IsWithin};
ghost use Rattle.sk_snap.specs.History.{entries_in};

use sk_hub::{OutOfMemory, Update, Updater, open};
use sk_io::{MemSink, MemSource};
use sk_model::limits::ITEM_END;
use sk_rank::{Fault, Plan, rank};
use sk_snap::{Below, QuantReader, QuantSetup, VersionedQuant};
use sk_theta::Shape;
use std::alloc::Global;
use std::process::Abort;
use std::sync::Wait;
use std::test::Fail;
use std::thread;
use std::thread::Threads;

// A ranking of the numbers below 3, which are the items below 4, by coins of key 0, and what is to come of it.
#[derive(Clone, Copy)]
struct Row<'a> {
    k: u32,
    updaters: u32,
    size: u32,
    // 0 where none is asked for
    window: u32,
    propagator: bool,
    text: &'a [u8],
    // the read that fails, from 0, and how many bytes the output takes
    read_fails: u64,
    room: usize,
    fault: Option<Fault>,
    out: &'a [u8],
}

fn plan_of(row: Row<'_>) -> Option<Plan>
    ensures { IfSome result IsWithin }
{
    if !(2..=4_096).contains(&row.k) || !(1..=4_096).contains(&row.size) {
        return None;
    }
    if !(1..=64).contains(&row.updaters) || row.window > 1_000_000 {
        return None;
    }
    Some(Plan {
        k: row.k,
        key: 0,
        at: 4,
        size: row.size,
        updaters: row.updaters,
        window: if row.window == 0 {
            None
        } else {
            Some(row.window)
        },
        propagator: row.propagator,
    })
}

fn check<R: Abort + Threads + Wait + Sync>(
    rt: &R,
    alloc: Global,
    row: Row<'_>,
) -> Result<(), Fail> {
    let plan = plan_of(row).ok_or("no plan")?;
    let fails = [row.read_fails].to_vec(alloc)?;
    let mut input = MemSource::new(row.text.to_vec(alloc)?, 1, fails);
    let mut out = MemSink::new(alloc, row.room, 7, Vec::new(alloc))?;
    let ended = rank(rt, alloc, &plan, 1_000, &mut input, &mut out);
    assert_eq!(rt; ended.err(), row.fault);
    assert_eq!(rt; out.written(), row.out);
    Ok(())
}

// One updater with buffers of one item, and no propagator.
const ONE: Row<'static> = Row {
    k: 4,
    updaters: 1,
    size: 1,
    window: 2,
    propagator: false,
    text: b"1\n2\n3\n4\n",
    read_fails: 99,
    room: 99,
    fault: None,
    out: b"at 2 n 0 below 0 within 0\nat 4 n 2 below 2 within 0\nn 4 below 2 within 0\n",
};

#[test]
fn one_updater_lacks_two_items_at_each_window(rt: HostRuntime) -> Result<(), Fail> {
    check(&rt, rt.alloc(), ONE)
}

#[test]
fn a_short_stream_is_told_whole(rt: HostRuntime) -> Result<(), Fail> {
    let alloc = rt.alloc();
    let three = Row {
        k: 2,
        window: 0,
        text: b"1\n2\n3\n",
        out: b"n 3 below 2 within 0\n",
        ..ONE
    };
    check(&rt, alloc, three)?;
    let beside = Row {
        propagator: true,
        ..three
    };
    check(&rt, alloc, beside)?;
    let none = Row {
        text: b"",
        out: b"n 0 below 0 within 0\n",
        ..beside
    };
    check(&rt, alloc, none)?;
    let many = Row {
        k: 64,
        updaters: 4,
        size: 2,
        text: b"5\n1\n4\n1\n\n3\n9\n2\n6\n",
        out: b"n 8 below 3 within 0\n",
        ..beside
    };
    check(&rt, alloc, many)
}

#[test]
fn a_ranking_that_fails_tells_its_full_windows(rt: HostRuntime) -> Result<(), Fail> {
    let alloc = rt.alloc();
    let refused = Row {
        text: b"1\n2\nx\n",
        fault: Some(Fault::BadItem(3)),
        out: b"at 2 n 0 below 0 within 0\n",
        ..ONE
    };
    check(&rt, alloc, refused)?;
    let broken = Row {
        read_fails: 5,
        fault: Some(Fault::ReadFault),
        out: b"at 2 n 0 below 0 within 0\n",
        ..ONE
    };
    check(&rt, alloc, broken)?;
    let full = Row {
        room: 30,
        fault: Some(Fault::WriteFault),
        out: b"at 2 n 0 below 0 within 0\nat 4",
        ..ONE
    };
    check(&rt, alloc, full)?;
    let last = Row {
        room: 55,
        fault: Some(Fault::WriteFault),
        out: b"at 2 n 0 below 0 within 0\nat 4 n 2 below 2 within 0\nn 4",
        ..ONE
    };
    check(&rt, alloc, last)
}

// ---- a reader beside four updaters

// Offers an item until it is kept. Where both buffers are full it helps.
fn keep<W: Wait + Drop, R: Abort + Wait>(
    rt: &R,
    updater: &mut Updater<VersionedQuant<W>>,
    item: u64,
) {
    'offer: for _ in rt.forever() {
        assert!(rt; (1..ITEM_END).contains(&item) && updater.taken() < 10_000);
        if updater.update(item) != Update::Busy {
            return;
        }
        updater.help(rt);
    }
    unreachable!()
}

// Fills each buffer of two with one item below 5 and one above.
fn keep_pairs<W: Wait + Drop, R: Abort + Wait>(rt: &R, updater: &mut Updater<VersionedQuant<W>>) {
    'pair: for _ in 0..500 {
        keep(rt, updater, 1);
        keep(rt, updater, 9);
    }
}

fn keep_at_once<W: Wait + Drop + Send, R: Abort + Threads + Wait + Sync>(
    rt: &R,
    updaters: Vec<Updater<VersionedQuant<W>>>,
) -> Vec<Updater<VersionedQuant<W>>> {
    let mut updaters = updaters;
    thread::for_each_mut(
        rt,
        updaters.as_mut_slice(),
        4,
        &|_i, updater| keep_pairs(rt, updater),
    );
    updaters
}

// Reads often. Half of each list that is published lies below 5, so each rank tells how near it is.
fn read_often<R: Abort + Wait>(rt: &R, reader: QuantReader) -> QuantReader {
    let mut reader = reader;
    let mut n = 0;
    'read: for _ in 0..3_000 {
        let rank = reader.read(rt, Below { x: 5 });
        assert!(rt; n <= rank.n && rank.n % 2 == 0);
        assert!(rt; rank.below.abs_diff(rank.n / 2) <= rank.within);
        n = rank.n;
    }
    reader
}

#[test]
fn a_reader_is_near_while_four_updaters_run(rt: HostRuntime) -> Result<(), Fail> {
    let alloc = rt.alloc();
    let (sketch, reader) = VersionedQuant::new(alloc, &rt, QuantSetup { k: 2, key: 7 })?;
    let Ok(shape) = Shape::new(2, 2, 4, 0, false) else {
        return Ok(());
    };
    let opened = open(alloc, &shape, sketch)?;
    let updaters = opened.updaters;
    let (_updaters, _reader) = thread::join(
        &rt,
        || keep_at_once(&rt, updaters),
        || read_often(&rt, reader),
    );
    Ok(())
}

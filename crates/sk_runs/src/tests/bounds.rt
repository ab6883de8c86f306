// A bound on how much is read, smaller than that of the program.
ghost use Rattle.std.specs.Prelude.{◌≡◌};

use super::stage::alarms;
use sk_count::{Fault, Kind, Numbers, Plan, count};
use sk_io::{MemSink, MemSource};
use std::alloc::Global;
use std::process::Abort;
use std::sync::Wait;
use std::test::Fail;
use std::thread::Threads;

// How a count of numbers ends that reads fewer than 8 bytes.
fn counted_within<R: Threads + Wait + Sync>(
    rt: &R,
    alloc: Global,
    text: &[u8],
) -> Result<Result<(), Fault>, Fail> {
    let mut sizes = Numbers::new();
    sizes.push(64);
    let plan = Plan {
        k: 4,
        kind: Kind::Raw,
        column: 0,
        sizes,
        updaters: 1,
        window: None,
        eager: true,
        propagator: true,
        alarms: Numbers::new(),
        made: None,
    };
    let mut input = MemSource::new(text.to_vec(alloc)?, 3, Vec::new(alloc));
    let mut out = MemSink::new(alloc, 100, 7, Vec::new(alloc))?;
    let mut board = alarms(alloc)?;
    let counted = count(rt, alloc, &plan, 8, &mut input, &mut out, &mut board);
    Ok(counted.map(|_left| ()))
}

fn expect_within<R: Threads + Wait + Abort + Sync>(
    rt: &R,
    alloc: Global,
    text: &[u8],
    ended: Result<(), Fault>,
) -> Result<(), Fail> {
    assert_eq!(rt; counted_within(rt, alloc, text)?, ended);
    Ok(())
}

// Fewer bytes are fine, as many are too much, and a refused line comes first.
#[test]
fn too_much(rt: HostRuntime) -> Result<(), Fail> {
    let alloc = rt.alloc();
    expect_within(&rt, alloc, b"1\n2\n3\n4", Ok(()))?;
    expect_within(&rt, alloc, b"1\n2\n3\n4\n", Err(Fault::TooMuch))?;
    expect_within(&rt, alloc, b"1\n2\n3\n4\nx\n", Err(Fault::TooMuch))?;
    expect_within(&rt, alloc, b"1\nx\n3\n4\n", Err(Fault::BadItem(2)))
}

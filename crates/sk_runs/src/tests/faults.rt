// Streams that fail, at each place in turn.
use super::rows::check_rows;
use std::alloc::Global;
use std::process::Abort;
use std::sync::Wait;
use std::test::Fail;
use std::thread::Threads;

// The lines of a count by windows of two, and what is due of it.
const COUNT: &str = "count --raw --window 2 --propagator no | 1;2;3;4;";

const DUE: &str = "at 2 estimate 2/1;at 4 estimate 4/1;estimate 4/1;";

// Each read fails in turn, in pieces of one byte; the last place is after the end.
const READS: &str = "\
read=0 | count | a;b;c;d | 3 | | read fault;
read=1 | count | a;b;c;d | 3 | | read fault;
read=2 | count | a;b;c;d | 3 | | read fault;
read=3 | count | a;b;c;d | 3 | | read fault;
read=4 | count | a;b;c;d | 3 | | read fault;
read=5 | count | a;b;c;d | 3 | | read fault;
read=6 | count | a;b;c;d | 3 | | read fault;
read=7 | count | a;b;c;d | 3 | | read fault;
read=8 | count | a;b;c;d | 0 | estimate 4/1; |
room=5 | count --k 4 | | 4 | estim | write fault;";

// A failed write to standard error changes no status.
const FULL: &str = "\
piece=100 read=9 room=100 err=0 | count x | a; | 2 | |
piece=100 read=0 room=100 err=0 | count | a; | 3 | |
piece=100 read=9 room=0 err=0 | hash | a; | 4 | |
piece=100 read=9 room=100 err=0 | count --raw | x; | 6 | |
piece=100 read=9 room=100 err=0 | replay | x; | 7 | |
piece=100 read=9 room=100 err=0 | count --file none | a; | 8 | |
piece=100 read=9 room=100 err=0 | count --csv 2 | a; | 12 | |
piece=100 read=9 room=100 err=0 | count --raw --csv 2 | a,5;;b,x; | 6 | |
err=9 | count --raw | x; | 6 | | line 1: n";

#[test]
fn reads_that_fail(rt: HostRuntime) -> Result<(), Fail> {
    check_rows(&rt, rt.alloc(), READS, 10)
}

#[test]
fn an_error_output_that_is_full(rt: HostRuntime) -> Result<(), Fail> {
    check_rows(&rt, rt.alloc(), FULL, 9)
}

// A full window that was read before the fault has its estimate.
const WINDOWS: &str = "\
read=0 | count --raw --window 2 --propagator no | 1;2;3;4; | 3 | | read fault;
read=1 | count --raw --window 2 --propagator no | 1;2;3;4; | 3 | | read fault;
read=2 | count --raw --window 2 --propagator no | 1;2;3;4; | 3 | | read fault;
read=3 | count --raw --window 2 --propagator no | 1;2;3;4; | 3 | | read fault;
read=4 | count --raw --window 2 --propagator no | 1;2;3;4; | 3 | at 2 estimate 2/1; | read fault;
read=5 | count --raw --window 2 --propagator no | 1;2;3;4; | 3 | at 2 estimate 2/1; | read fault;
read=6 | count --raw --window 2 --propagator no | 1;2;3;4; | 3 | at 2 estimate 2/1; | read fault;
read=7 | count --raw --window 2 --propagator no | 1;2;3;4; | 3 | at 2 estimate 2/1; | read fault;
read=8 | count --raw --window 2 --propagator no | 1;2;3;4; | 3 \
| at 2 estimate 2/1;at 4 estimate 4/1; | read fault;
read=9 | count --raw --window 2 --propagator no | 1;2;3;4; | 0 \
| at 2 estimate 2/1;at 4 estimate 4/1;estimate 4/1; |";

#[test]
fn windows_whose_read_fails(rt: HostRuntime) -> Result<(), Fail> {
    check_rows(&rt, rt.alloc(), WINDOWS, 10)
}

// Checks a count whose output fails at a place: this many bytes stand.
fn check_front<R: Threads + Wait + Abort + Sync>(
    rt: &R,
    alloc: Global,
    streams: &str,
    bytes: usize,
) -> Result<(), Fail> {
    let (front, _) = DUE.split_at_checked(bytes).ok_or("no such front")?;
    let front = front.replace(alloc, ' ', "_")?;
    let row = format!(in alloc; "{streams} | {COUNT} | 4 | {front} | write fault;")?;
    check_rows(rt, alloc, row.as_str(), 1)
}

// The output has less room than is due, or takes a byte at a time and fails at one of them.
#[test]
fn windows_whose_write_fails(rt: HostRuntime) -> Result<(), Fail> {
    let alloc = rt.alloc();
    assert_eq!(rt; DUE.len(), 49);
    'place: for place in 0..49usize {
        let room = format!(in alloc; "room={place}")?;
        check_front(&rt, alloc, room.as_str(), place)?;
        let write = format!(in alloc; "taken=1 write={place}")?;
        check_front(&rt, alloc, write.as_str(), place)?;
    }
    let row = format!(in alloc; "room=49 taken=1 write=49 | {COUNT} | 0 | {DUE} |")?;
    check_rows(&rt, alloc, row.as_str(), 1)
}

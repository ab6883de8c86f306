// Servers over doors and links in memory.
ghost use Rattle.std.specs.Prelude.{◌≡◌, ◌≤◌, [], All, IsSome, IfOk, length};
ghost use Rattle.sk_io.specs.Memory.{IsNew};
ghost use Rattle.sk_serve.specs.Plans.{IsServable};

use super::stage::{FINE, Ran, alarms, expect, run_at};
use sk_count::Numbers;
use sk_io::{MemDoor, MemLink, MemShelf, MemSink};
use sk_model::OutOfMemory;
use sk_serve::{ServePlan, serve as serve_plan};
use sk_watch::Seen;
use std::alloc::Global;
use std::sync::Wait;
use std::test::Fail;
use std::thread::Threads;

// A call that is never made.
const NEVER: u64 = 1_000_000;

// A link over which a text comes. Its call with the number `fails` fails.
fn link_of(alloc: Global, text: &[u8], fails: u64) -> Result<MemLink, Fail>
    ensures { IfOk result IsNew }
{
    let text = text.to_vec(alloc)?;
    Ok(MemLink::new(alloc, text, 100, 7, [fails].to_vec(alloc)?)?)
}

// A door with two links: one client adds a word and quits, one adds two and goes. A call of the first link fails, and
// one of the door.
fn door_of(alloc: Global, link_fails: u64, door_fails: u64) -> Result<MemDoor, Fail>
    ensures { IfOk result (λ door. door.closed ≡ []) }
{
    let mut links = Vec::new(alloc);
    links.push(link_of(alloc, b"add hello\nquit\n", link_fails)?)?;
    links.push(link_of(alloc, b"add hello\nadd hello, world\n", NEVER)?)?;
    Ok(MemDoor::new(links, [door_fails].to_vec(alloc)?))
}

// Serves what comes at a door.
fn serve<R: Threads + Wait + Sync>(
    rt: &R,
    alloc: Global,
    line: &str,
    door: &mut MemDoor,
) -> Result<Ran, Fail> {
    let mut shelf = MemShelf::new(Vec::new(alloc), Vec::new(alloc), Vec::new(alloc));
    let mut board = alarms(alloc)?;
    run_at(
        rt,
        alloc,
        &FINE,
        line,
        Vec::new(alloc),
        &mut shelf,
        door,
        &mut board,
    )
}

// However many sessions run at once, each ends as it was asked to, and the estimate is of the items of both.
#[test]
fn sessions_are_one_count(rt: HostRuntime) -> Result<(), Fail> {
    let alloc = rt.alloc();
    'line: for (line, out) in [
        (
            "serve --k 4 --sessions 2 --port 7000",
            "session 0 quit\nsession 1 closed\nestimate 2/1\n",
        ),
        (
            "serve --k 4 --sessions 2 --port 7000 --wave 1",
            "session 0 quit\nsession 1 closed\nestimate 2/1\n",
        ),
        (
            "serve --k 2 --sessions 2 --port 7000",
            "session 0 quit\nsession 1 closed\nestimate 9223372036854775808/7344337286506401153\n",
        ),
        (
            "serve --port 7000 --b 2,1 --sessions 2 --eager no",
            "session 0 quit\nsession 1 closed\nestimate 2/1\n",
        ),
        (
            "serve --port 7000 --sessions 2 --alarm 2,3",
            "session 0 quit\nsession 1 closed\nalarm 1\nestimate 2/1\n",
        ),
        ("serve --port 7000", "session 0 quit\nestimate 1/1\n"),
    ] {
        let mut door = door_of(alloc, NEVER, NEVER)?;
        let ran = serve(&rt, alloc, line, &mut door)?;
        expect(&rt, &ran, line, 0, out.as_bytes(), b"");
    }
    Ok(())
}

// A listen or an accept that fails leaves nothing written; a link that fails ends its own session alone.
#[test]
fn faults_of_doors_and_links(rt: HostRuntime) -> Result<(), Fail> {
    let alloc = rt.alloc();
    let line = "serve --k 4 --sessions 2 --port 7000";
    'call: for call in [0, 1, 2] {
        let mut door = door_of(alloc, NEVER, call)?;
        let ran = serve(&rt, alloc, line, &mut door)?;
        expect(&rt, &ran, line, 10, b"", b"net fault\n");
    }
    let mut door = door_of(alloc, 2, NEVER)?;
    let ran = serve(&rt, alloc, line, &mut door)?;
    let out = b"session 0 fault\nsession 1 closed\nestimate 2/1\n";
    expect(&rt, &ran, line, 0, out, b"");
    Ok(())
}

// A server listens at the port that its words name, whatever fails later.
#[test]
fn servers_listen_at_their_ports(rt: HostRuntime) -> Result<(), Fail> {
    let alloc = rt.alloc();
    'line: for (line, fails, port) in [
        ("serve --port 7000", NEVER, Some(7000)),
        ("serve --sessions 2 --port 65535", NEVER, Some(65_535)),
        ("serve --port 1", 1, Some(1)),
        ("serve --port 7000", 0, None),
        ("serve --port 0", NEVER, None),
        ("count", NEVER, None),
    ] {
        let mut door = door_of(alloc, NEVER, fails)?;
        let _ = serve(&rt, alloc, line, &mut door)?;
        assert_eq!(rt; door.port(), port, "at {line}, call {fails} fails");
    }
    Ok(())
}

// Two sessions, this many of them in parallel.
fn two_sessions(wave: u32) -> ServePlan
    requires { 1 ≤ wave }
    ensures within { IsServable result }
    ensures alarms { result.alarms ≡ [] }
    ensures two { result.sessions ≡ 2 }
{
    let mut sizes = Numbers::new();
    sizes.push(64);
    ServePlan {
        k: 4,
        sizes,
        sessions: 2,
        port: 7_000,
        seed: 0,
        eager: true,
        alarms: Numbers::new(),
        wave,
    }
}

// What is sent back over the two links of a server that ends well: that it does says that both were closed.
fn replies_of<R: Threads + Wait + Sync, B: Seen>(
    rt: &R,
    alloc: Global,
    plan: &ServePlan,
    door: &mut MemDoor,
    board: &mut B,
) -> Result<(Vec<u8>, Vec<u8>), OutOfMemory>
    requires within { IsServable plan.now }
    requires two { plan.now.sessions ≡ 2 }
    requires places { length plan.now.alarms ≤ length (B.places board.old) }
    requires live { All IsSome (B.places board.old) }
    requires none { door.old.closed ≡ [] }
{
    let mut out = MemSink::new(alloc, 1_000, 7, Vec::new(alloc))?;
    match serve_plan(rt, alloc, plan, 1_000, &mut out, door, board) {
        Ok(_) => {
            let first = door.written(0).to_vec(alloc)?;
            Ok((first, door.written(1).to_vec(alloc)?))
        }
        Err(_) => Err(OutOfMemory),
    }
}

// However many sessions run at once, each is over the link that came in its place.
#[test]
fn each_add_is_answered_on_its_link(rt: HostRuntime) -> Result<(), Fail> {
    let alloc = rt.alloc();
    'wave: for wave in [1, 2, 3] {
        let mut board = alarms(alloc)?;
        let mut door = door_of(alloc, NEVER, NEVER)?;
        let plan = two_sessions(wave);
        let (first, second) = replies_of(&rt, alloc, &plan, &mut door, &mut board)?;
        assert_eq!(rt; first.as_slice(), b"kept\n".as_slice());
        assert_eq!(rt; second.as_slice(), b"kept\nkept\n".as_slice());
    }
    Ok(())
}

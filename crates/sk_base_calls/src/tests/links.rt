// Links and doors: by their traits alone, and in memory.
ghost use Rattle.std.specs.Prelude.{◌≡◌, ◌+◌, ◌<◌, [], ◌∷◌, ◌++◌, ℕ, List, Some, IfSome, length, take, IfOk, OnOk};
ghost use Rattle.std.specs.Io.{ReadsAtMost};
ghost use Rattle.sk_model.specs.Causes.{HasCause};
ghost use Rattle.sk_io.specs.Memory.{IsNew};
ghost use Rattle.sk_io.specs.Traffic.{Ended, IsUntouched, Exchanges, Pass, Receives, text_of};

use super::streams::piece_of;
use super::{expect, expect_at};
use sk_io::{Door, DoorFault, Failed, Link, MemDoor, MemLink, OnLink, OutOfMemory, send_all};
use std::alloc::Global;
use std::process::Abort;
use std::test::Fail;

// Reads a link once, as a function does that reads from any source.
#[tactic(auto, using(sk_io::proofs::Links::receives))]
fn piece_on<L: Link>(link: &mut L, piece: &mut [u8]) -> Result<usize, Failed>
    requires { 0 < length piece.old }
    ensures bound { ReadsAtMost result piece.new }
    ensures bytes { Receives (L.traffic link.old) (L.traffic link.new) result piece.new }
    ensures cause { HasCause (L.faults link.old) (L.faults link.new) result }
{
    piece_of(&mut OnLink::new(link), piece)
}

// Sends back what a read of a link gives, as a session does that knows the link by its trait alone.
fn echo<L: Link>(link: &mut L) -> Result<(), Failed>
    ensures whole { OnOk result ((bytes : List ℕ) × Exchanges (L.traffic link.old) (L.traffic link.new) bytes bytes) }
    ensures prefix { (bytes : List ℕ) × (n : ℕ) × Exchanges (L.traffic link.old) (L.traffic link.new) bytes (take n bytes) }
    ensures cause { HasCause (L.faults link.old) (L.faults link.new) result }
{
    let mut piece = [0; 4];
    let n = piece_on(link, &mut piece)?;
    send_all(link, &piece[..n])
}

// Echoes a piece on a link that was just accepted, and closes it. What was sent back is a prefix of what
// was read, and all of that if no call failed.
#[tactic(auto, using(sk_io::proofs::Links::text_kept))]
fn echo_and_close<D: Door>(door: &mut D, mut link: D::Link)
    requires room { 0 < D.room door.old }
    requires untouched { IfSome (D.Link.traffic link) IsUntouched }
    requires count { D.Link.faults link ≡ 0 }
    ensures ended { (e : Ended) × (D.doorway door.new ≡ record (D.doorway door.old) { closed = (D.doorway door.old).closed ++ e ∷ [] })
        × (text_of e.traffic ≡ text_of (D.Link.traffic link))
        × IfSome e.traffic (λ t. (n : ℕ) × (t.written ≡ take n t.taken))
        × (e.faults ≡ 0 → IfSome e.traffic (λ t. t.written ≡ t.taken)) }
    ensures room { D.room door.new + 1 ≡ D.room door.old }
{
    let _ = echo(&mut link);
    door.close(link);
}

// Echoes a piece on each of two links that are open together, and closes them in the order in which they came.
fn echo_two<D: Door>(door: &mut D, port: u16) -> Result<(), DoorFault>
    ensures port { OnOk result ((D.doorway door.new).port ≡ Some port) }
    ensures closed { OnOk result ((one : Ended) × (two : Ended)
        × Pass (D.doorway door.old) (D.doorway door.new) (one ∷ two ∷ [])
        × (one.faults ≡ 0 → IfSome one.traffic (λ t. t.written ≡ t.taken))
        × (two.faults ≡ 0 → IfSome two.traffic (λ t. t.written ≡ t.taken))) }
{
    door.listen(port, 2)?;
    let one = door.accept()?;
    let Ok(two) = door.accept() else {
        door.close(one);
        return Err(DoorFault::Failed);
    };
    echo_and_close(door, one);
    echo_and_close(door, two);
    Ok(())
}

#[test]
fn a_link_counts_reads_and_writes_together(rt: HostRuntime) -> Result<(), Fail> {
    let alloc = rt.alloc();
    let fails = [1, 4].to_vec(alloc)?;
    let mut link = MemLink::new(alloc, b"hello".to_vec(alloc)?, 4, 3, fails)?;
    let mut piece = [0; 8];
    expect(&rt, link.read(&mut piece), Ok(3));
    expect(&rt, link.write(b"replies"), Err(Failed));
    expect(&rt, link.write(b"replies"), Ok(3));
    expect(&rt, link.read(&mut piece), Ok(2));
    expect(&rt, link.read(&mut piece), Err(Failed));
    expect(&rt, piece, *b"lol\0\0\0\0\0");
    // The room takes one byte more, and then none.
    expect(&rt, send_all(&mut link, b"lies"), Err(Failed));
    expect(&rt, link.read(&mut piece), Ok(0));
    expect(&rt, link.written(), b"repl".as_slice());
    Ok(())
}

// A new link over which a text comes, with room for `room` bytes, in pieces of three bytes.
fn link_of(alloc: Global, text: &[u8], room: usize) -> Result<MemLink, OutOfMemory>
    ensures { IfOk result IsNew }
{
    MemLink::new(alloc, text.to_vec(alloc)?, room, 3, Vec::new(alloc))
}

// A door of two links, the second with room for two bytes.
fn door_of(alloc: Global, fails: Vec<u64>) -> Result<MemDoor, OutOfMemory>
    ensures { IfOk result (λ door. door.closed ≡ []) }
{
    let mut links = Vec::new(alloc);
    links.push(link_of(alloc, b"one", 3)?)?;
    links.push(link_of(alloc, b"four", 2)?)?;
    Ok(MemDoor::new(links, fails))
}

#[test]
fn a_door_gives_its_links_in_order(rt: HostRuntime) -> Result<(), Fail> {
    let alloc = rt.alloc();
    let mut door = door_of(alloc, Vec::new(alloc))?;
    // That both links were closed is known after it.
    match echo_two(&mut door, 7000) {
        Ok(()) => {}
        Err(fault) => panic!(rt; "{fault:?} at the first two links"),
    }
    expect(&rt, door.written(0), b"one".as_slice());
    expect(&rt, door.written(1), b"fo".as_slice());
    // No link is left.
    expect(&rt, echo_two(&mut door, 7000), Err(DoorFault::Failed));
    Ok(())
}

// Expects the port at which a door listens that is given this one, while this call of it fails.
fn expect_port(
    rt: &impl Abort,
    alloc: Global,
    fails: u64,
    port: u16,
    listens: Option<u16>,
) -> Result<(), OutOfMemory> {
    let mut door = door_of(alloc, [fails].to_vec(alloc)?)?;
    expect(rt, door.port(), None);
    let _ = door.listen(port, 2);
    expect_at(rt, (port, fails), door.port(), listens);
    Ok(())
}

// A door listens at the port that it was given, unless that call fails.
#[test]
fn a_door_listens_at_its_port(rt: HostRuntime) -> Result<(), Fail> {
    let alloc = rt.alloc();
    for (fails, port, listens) in [(9, 7000, Some(7000)), (1, 1, Some(1)), (0, 7000, None)] {
        expect_port(&rt, alloc, fails, port, listens)?;
    }
    Ok(())
}

fn expect_failure_at(rt: &impl Abort, alloc: Global, call: u64) -> Result<(), OutOfMemory> {
    let mut door = door_of(alloc, [call].to_vec(alloc)?)?;
    expect_at(rt, call, echo_two(&mut door, 7000), Err(DoorFault::Failed));
    Ok(())
}

#[test]
fn a_door_fails_at_its_numbers(rt: HostRuntime) -> Result<(), Fail> {
    let alloc = rt.alloc();
    for call in 0..3 {
        expect_failure_at(&rt, alloc, call)?;
    }
    Ok(())
}

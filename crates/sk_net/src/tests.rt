ghost use Rattle.std.specs.Prelude.{◌≡◌, ◌<◌, Some, IfOk};

use crate::{ClosedLink, TcpDoor, TcpLink};
use sk_io::{Door, DoorFault, Failed, Link, send_all};
use std::alloc::Global;
use std::fmt::Debug;
use std::io::{ErrorKind, Read, Write};
use std::net::{Ipv4Addr, Net, Shutdown, SocketAddr, TcpStream};
use std::process::Abort;
use std::test::Fail;
use std::time::Duration;
use std::{io, thread};

// Links that were closed, on which nothing waited: no call had failed, or one.
const SOUND: ClosedLink = ClosedLink {
    faults: 0,
    waiting: 0,
};

const BROKEN: ClosedLink = ClosedLink {
    faults: 1,
    waiting: 0,
};

// An `assert_eq!` that costs the proof of a test one call.
pub(crate) fn expect<R: Abort, T: PartialEq + Debug + Copy>(rt: &R, got: T, want: T) {
    assert_eq!(rt; got, want);
}

// A door that listens at a free port, for this many links.
fn door_for<R: Net + Drop>(rt: R, alloc: Global, links: u32) -> Result<TcpDoor<R>, DoorFault>
    ensures port { IfOk result (λ door. (⟦<TcpDoor<R> as Door>⟧.doorway door).port ≡ Some 0) }
    ensures room { IfOk result (λ door. ⟦<TcpDoor<R> as Door>⟧.room door ≡ links) }
{
    let mut door = TcpDoor::new(rt, alloc);
    door.listen(0, links)?;
    Ok(door)
}

// A client of a port.
fn client_of(rt: &HostRuntime, port: Option<u16>) -> io::Result<TcpStream> {
    TcpStream::connect(
        rt,
        SocketAddr::from((Ipv4Addr::LOCALHOST, port.unwrap_or(0))),
    )
}

// Sends back what comes over a link, and returns the link.
fn echoed(mut link: TcpLink) -> TcpLink {
    let mut piece = [0; 64];
    'read: for _ in 0..1000 {
        match link.read(&mut piece) {
            Ok(0) | Err(Failed) => break,
            Ok(n) => {
                let _ = send_all(&mut link, &piece[..n]);
            }
        }
    }
    link
}

// Sends a text in pieces of `step` bytes, and returns what comes back of as many bytes.
fn answer_to(client: &mut TcpStream, text: &[u8; 8], step: usize) -> io::Result<[u8; 8]>
    requires { 0 < step }
{
    client.set_nodelay(true)?;
    'piece: for piece in text.chunks(step) {
        client.write_all(piece)?;
    }
    client.shutdown(Shutdown::Write)?;
    let mut answer = [0; 8];
    client.read_exact(&mut answer)?;
    Ok(answer)
}

#[test]
fn clients_get_their_replies(rt: HostRuntime) -> Result<(), Fail> {
    let text = b"one\ntwo\n";
    // In one write, byte by byte, and cut within lines.
    for step in [8, 1, 3] {
        let mut door = door_for(&rt, rt.alloc(), 1)?;
        let mut client = client_of(&rt, door.port())?;
        let link = door.accept()?;
        let server = thread::spawn(&rt, move || echoed(link))?;
        let answer = answer_to(&mut client, text, step)?;
        assert_eq!(rt; answer, *text, "in steps of {step}");
        door.close(server.join(&rt));
        expect(&rt, door.closed(), [SOUND].as_slice());
    }
    Ok(())
}

#[test]
fn another_address_of_the_machine_is_refused(rt: HostRuntime) -> Result<(), Fail> {
    let door = door_for(&rt, rt.alloc(), 1)?;
    let port = door.port().unwrap_or(0);
    let other = SocketAddr::from((Ipv4Addr::new(127, 0, 0, 2), port));
    let refused = match TcpStream::connect(&rt, other) {
        Ok(_) => false,
        Err(e) => e.kind() == ErrorKind::ConnectionRefused,
    };
    expect(&rt, refused, true);
    expect(&rt, client_of(&rt, Some(port)).is_ok(), true);
    Ok(())
}

#[test]
fn a_peer_that_resets_is_a_fault_of_its_link_alone(rt: HostRuntime) -> Result<(), Fail> {
    let mut door = door_for(&rt, rt.alloc(), 2)?;
    let (mut one, mut two) = (client_of(&rt, door.port())?, client_of(&rt, door.port())?);
    let (mut first, mut second) = (door.accept()?, door.accept()?);
    let mut piece = [0; 8];
    one.write_all(b"add x\n")?;
    expect(&rt, first.read(&mut piece), Ok(6));
    expect(&rt, first.write(b"kept\n"), Ok(5));
    one.write_all(b"ask\n")?;
    expect(&rt, first.read(&mut piece), Ok(4));
    // The system resets a connection that is closed before all that came was read.
    drop(one);
    expect(&rt, first.read(&mut piece), Err(Failed));
    two.write_all(b"ask\n")?;
    expect(&rt, second.read(&mut piece), Ok(4));
    door.close(first);
    door.close(second);
    expect(&rt, door.closed(), [BROKEN, SOUND].as_slice());
    Ok(())
}

#[test]
fn a_peer_that_left_is_a_fault_and_no_signal(rt: HostRuntime) -> Result<(), Fail> {
    let mut door = door_for(&rt, rt.alloc(), 1)?;
    let client = client_of(&rt, door.port())?;
    let mut link = door.accept()?;
    drop(client);
    let mut piece = [0; 8];
    expect(&rt, link.read(&mut piece), Ok(0));
    // The first may still be taken.
    let mut failed = false;
    'reply: for _ in 0..1000 {
        if !failed {
            failed = link.write(b"kept\n").is_err();
        }
    }
    expect(&rt, failed, true);
    door.close(link);
    expect(&rt, door.closed(), [BROKEN].as_slice());
    Ok(())
}

#[test]
fn a_peer_that_stops_reading_is_a_fault_of_its_link(rt: HostRuntime) -> Result<(), Fail> {
    let mut door = door_for(&rt, rt.alloc(), 1)?;
    door.send_wait = Duration::from_millis(20);
    let client = client_of(&rt, door.port())?;
    let mut link = door.accept()?;
    // The system takes some replies for the peer before a send waits.
    let mut failed = false;
    'reply: for _ in 0..1_000_000 {
        if !failed {
            failed = link.write(&[b'x'; 1024]).is_err();
        }
    }
    expect(&rt, failed, true);
    let broken = ClosedLink {
        faults: 1,
        waiting: link.waiting(),
    };
    expect(&rt, broken.waiting > 0, true);
    door.close(link);
    expect(&rt, door.closed(), [broken].as_slice());
    drop(client);
    Ok(())
}

#[test]
fn what_waits_is_sent_at_the_close(rt: HostRuntime) -> Result<(), Fail> {
    let mut door = door_for(&rt, rt.alloc(), 1)?;
    let mut client = client_of(&rt, door.port())?;
    let mut link = door.accept()?;
    expect(&rt, link.write(b"kept\n"), Ok(5));
    let mut answer = [0; 5];
    client.set_nonblocking(true)?;
    expect(&rt, client.read(&mut answer).is_err(), true);
    client.set_nonblocking(false)?;
    door.close(link);
    client.read_exact(&mut answer)?;
    expect(&rt, answer, *b"kept\n");
    expect(&rt, client.read(&mut answer)?, 0);
    let waited = ClosedLink {
        faults: 0,
        waiting: 5,
    };
    expect(&rt, door.closed(), [waited].as_slice());
    Ok(())
}

#[test]
fn behind_the_finish_the_peer_sees_the_end(rt: HostRuntime) -> Result<(), Fail> {
    let mut door = door_for(&rt, rt.alloc(), 1)?;
    let mut client = client_of(&rt, door.port())?;
    let mut link = door.accept()?;
    expect(&rt, link.write(b"kept\n"), Ok(5));
    expect(&rt, link.finish(), Ok(()));
    let mut answer = [0; 8];
    expect(&rt, client.read(&mut answer)?, 5);
    expect(&rt, client.read(&mut answer)?, 0);
    door.close(link);
    expect(&rt, door.closed(), [SOUND].as_slice());
    Ok(())
}

#[test]
fn a_link_past_the_memory_sends_at_once(rt: HostRuntime) -> Result<(), Fail> {
    let mut door = door_for(&rt, rt.alloc(), 0)?;
    let mut client = client_of(&rt, door.port())?;
    let mut link = door.accept()?;
    expect(&rt, link.write(b"kept\n"), Ok(5));
    let mut answer = [0; 5];
    client.read_exact(&mut answer)?;
    expect(&rt, answer, *b"kept\n");
    Ok(())
}

#[test]
fn a_port_is_listened_at_once(rt: HostRuntime) -> Result<(), Fail> {
    let door = door_for(&rt, rt.alloc(), 1)?;
    let port = door.port().unwrap_or(0);
    let mut other = TcpDoor::new(&rt, rt.alloc());
    expect(&rt, other.port(), None);
    expect(&rt, other.address(), None);
    expect(&rt, other.listen(port, 1), Err(DoorFault::Failed));
    drop(door);
    expect(&rt, other.listen(port, 1), Ok(()));
    expect(&rt, other.port(), Some(port));
    let local = SocketAddr::from((Ipv4Addr::LOCALHOST, port));
    expect(&rt, other.address(), Some(local));
    Ok(())
}

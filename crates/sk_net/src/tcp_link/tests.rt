// Links over a stream that interrupts, moves small pieces and fails where its plan says so.
ghost use Rattle.std.specs.Prelude.{◌≡◌, ◌<◌, OnOk, length};
ghost use Rattle.std.specs.Io.KnownBytes.{ReadConsumes};
ghost use Rattle.sk_net.specs.Links.{stream_of, waiting_of};

use super::TcpLink;
use crate::replies::Replies;
use crate::tests::expect;
use sk_io::{Failed, Link, send_all};
use std::alloc::Global;
use std::io;
use std::io::{ErrorKind, Read, Write};
use std::net::{Ipv4Addr, OpenStream, SocketAddr, TcpListener, TcpStream};
use std::test::Fail;
use std::time::Duration;

// A stream over which a text comes. It counts its calls, and its writes apart.
#[derive(Drop)]
struct Wire<'a> {
    left: &'a [u8],
    output: Vec<u8>,
    piece: usize,
    calls: u32,
    writes: u32,
    // Whether each other call is interrupted.
    interrupts: bool,
    // The number of the first call that fails, from 0, how many fail, and how.
    fails: u32,
    failures: u32,
    kind: ErrorKind,
}

impl<'a> Wire<'a> {
    // A stream that moves everything in one call, and never fails.
    fn new(alloc: Global, left: &'a [u8]) -> Self {
        Wire {
            left,
            output: Vec::new(alloc),
            piece: 1_000_000,
            calls: 0,
            writes: 0,
            interrupts: false,
            fails: u32::MAX,
            failures: 1,
            kind: ErrorKind::ConnectionReset,
        }
    }

    // Counts a call that moves bytes, and fails where it is to.
    fn call(&mut self) -> io::Result<()> {
        let number = self.calls;
        self.calls = number.saturating_add(1);
        if self.interrupts && number % 2 == 0 {
            return Err(io::Error::from(ErrorKind::Interrupted));
        }
        if number >= self.fails && number - self.fails < self.failures {
            return Err(io::Error::from(self.kind));
        }
        Ok(())
    }
}

impl Read for Wire<'_> {
    fn read(&mut self, buf: &mut [u8]) -> io::Result<usize> {
        self.call()?;
        let n = buf.len().min(self.piece);
        self.left.read(&mut buf[..n])
    }
}

impl Write for Wire<'_> {
    fn write(&mut self, bytes: &[u8]) -> io::Result<usize> {
        self.call()?;
        self.writes = self.writes.saturating_add(1);
        self.output.write(&bytes[..bytes.len().min(self.piece)])
    }

    fn flush(&mut self) -> io::Result<()> {
        Ok(())
    }
}

// It has no other end, and no clock.
impl OpenStream for Wire<'_> {
    fn set_write_timeout(&self, _limit: Option<Duration>) -> io::Result<()> {
        Ok(())
    }
}

// A read of a link on which nothing waits, which gives the next bytes of its stream.
fn read_of<S: Read + Write + OpenStream>(
    link: &mut TcpLink<S>,
    buf: &mut [u8],
) -> Result<usize, Failed>
    requires some { 0 < length buf.old }
    requires none { length (waiting_of link.old) ≡ 0 }
    ensures next { ReadConsumes (S.remaining (stream_of link.old)) (S.remaining (stream_of link.new)) result buf.new }
    ensures none { OnOk result (length (waiting_of link.new) ≡ 0) }
{
    link.read(buf)
}

#[test]
fn a_read_gives_the_next_bytes(rt: HostRuntime) -> Result<(), Fail> {
    let alloc = rt.alloc();
    let mut wire = Wire::new(alloc, b"sync\n");
    wire.piece = 3;
    let mut link = TcpLink::new(wire, Replies::new(alloc, 64)?);
    let mut piece = [0; 8];
    expect(&rt, read_of(&mut link, &mut piece), Ok(3));
    expect(&rt, piece, *b"syn\0\0\0\0\0");
    Ok(())
}

#[test]
fn interrupted_calls_are_taken_up_again(rt: HostRuntime) -> Result<(), Fail> {
    let alloc = rt.alloc();
    let mut wire = Wire::new(alloc, b"sync\n");
    wire.interrupts = true;
    wire.piece = 2;
    let mut link = TcpLink::new(wire, Replies::new(alloc, 64)?);
    let mut piece = [0; 8];
    expect(&rt, send_all(&mut link, b"one\ntwo\n"), Ok(()));
    for n in [2, 2, 1, 0] {
        expect(&rt, link.read(&mut piece), Ok(n));
    }
    expect(&rt, link.stream.output.as_slice(), b"one\ntwo\n");
    expect(&rt, link.faults(), 0);
    Ok(())
}

#[test]
fn a_send_that_fails_is_a_fault_and_goes_on_where_it_stopped(rt: HostRuntime) -> Result<(), Fail> {
    let alloc = rt.alloc();
    // Three sends, and the read.
    for call in 0..4 {
        let mut wire = Wire::new(alloc, b"ask\n");
        wire.piece = 3;
        wire.fails = call;
        let mut link = TcpLink::new(wire, Replies::new(alloc, 64)?);
        let mut piece = [0; 8];
        expect(&rt, send_all(&mut link, b"one\ntwo\n"), Ok(()));
        let first = (link.read(&mut piece), link.faults());
        let then = (link.read(&mut piece), link.faults());
        assert_eq!(rt;
            (first, then),
            ((Err(Failed), 1), (Ok(3), 1)),
            "at call {call}"
        );
        expect(&rt, link.stream.output.as_slice(), b"one\ntwo\n");
    }
    Ok(())
}

#[test]
fn a_send_that_waits_in_vain_is_tried_again(rt: HostRuntime) -> Result<(), Fail> {
    let alloc = rt.alloc();
    // The waits in succession, what the read that sends gives, and how many bytes the peer has then.
    for (waits, read, sent) in [
        (1, Ok(4), 5),
        (5, Ok(4), 5),
        (6, Err(Failed), 0),
        (7, Err(Failed), 0),
    ] {
        let mut wire = Wire::new(alloc, b"ask\n");
        (wire.fails, wire.failures) = (0, waits);
        wire.kind = ErrorKind::WouldBlock;
        let mut link = TcpLink::new(wire, Replies::new(alloc, 64)?);
        expect(&rt, link.write(b"kept\n"), Ok(5));
        let got = (link.read(&mut [0; 8]), link.stream.output.len());
        assert_eq!(rt; got, (read, sent), "{waits} waits");
    }
    Ok(())
}

#[test]
fn a_broken_link_sends_nothing_at_its_close(rt: HostRuntime) -> Result<(), Fail> {
    let alloc = rt.alloc();
    for fails in [0, u32::MAX] {
        let mut wire = Wire::new(alloc, b"ask\n");
        wire.fails = fails;
        let mut link = TcpLink::new(wire, Replies::new(alloc, 64)?);
        expect(&rt, link.write(b"kept\n"), Ok(5));
        let is_broken = link.read(&mut [0; 8]).is_err();
        expect(&rt, link.write(b"kept\n"), Ok(5));
        let before = link.stream.calls;
        link.send_last();
        expect(&rt, link.stream.calls > before, !is_broken);
    }
    Ok(())
}

#[test]
fn many_replies_go_in_few_sends(rt: HostRuntime) -> Result<(), Fail> {
    let alloc = rt.alloc();
    // The room, the replies of five bytes each, and the sends before the next read and with it.
    for (room, replies, before, with) in [
        (16_384, 1000, 0, 1),
        (16_384, 10_000, 3, 4),
        (5, 3, 2, 3),
        (0, 3, 3, 3),
    ] {
        let mut link = TcpLink::new(Wire::new(alloc, b"ask\n"), Replies::new(alloc, room)?);
        for _ in 0..replies {
            expect(&rt, send_all(&mut link, b"kept\n"), Ok(()));
        }
        let first = link.stream.writes;
        expect(&rt, link.read(&mut [0; 8]), Ok(4));
        let got = (first, link.stream.writes, link.stream.output.len());
        assert_eq!(rt;
            got,
            (before, with, 5 * replies),
            "{replies} replies, room {room}"
        );
    }
    Ok(())
}

#[test]
fn behind_the_end_replies_are_sent_at_once(rt: HostRuntime) -> Result<(), Fail> {
    let alloc = rt.alloc();
    let mut link = TcpLink::new(Wire::new(alloc, b""), Replies::new(alloc, 64)?);
    expect(&rt, link.write(b"kept\n"), Ok(5));
    expect(&rt, link.read(&mut [0; 8]), Ok(0));
    expect(&rt, link.write(b"bad\n"), Ok(4));
    expect(&rt, link.stream.output.as_slice(), b"kept\nbad\n");
    link.stream.fails = link.stream.calls;
    expect(&rt, link.write(b"bad\n"), Err(Failed));
    expect(&rt, link.faults(), 1);
    Ok(())
}

#[test]
fn closing_does_not_wait_for_a_peer_that_stopped_reading(rt: HostRuntime) -> Result<(), Fail> {
    let listener = TcpListener::bind(&rt, SocketAddr::from((Ipv4Addr::LOCALHOST, 0)))?;
    let client = TcpStream::connect(&rt, listener.local_addr()?)?;
    let (stream, _) = listener.accept()?;
    stream.set_write_timeout(Some(Duration::from_millis(20)))?;
    let mut link = TcpLink::new(stream, Replies::new(rt.alloc(), 16_384)?);
    // The system takes more a while after a send that failed, until its buffers are full.
    let mut fails = 0;
    'fill: for _ in 0..1_000_000 {
        if fails < 10 && link.stream.write(&[b'x'; 1024]).is_err() {
            fails += 1;
        }
    }
    expect(&rt, fails, 10);
    expect(&rt, link.write(&[b'x'; 1024]), Ok(1024));
    link.stream.set_write_timeout(None)?;
    link.send_last();
    expect(&rt, link.faults(), 0);
    drop(client);
    Ok(())
}

// Sources and sinks: in memory, and over std.
ghost use Rattle.std.specs.Prelude.{◌≡◌, ◌<◌, OnOk, length};
ghost use Rattle.std.specs.Io.{ReadsAtMost};
ghost use Rattle.std.specs.Io.KnownBytes.{Appends, IsAtEnd, ReadConsumes};
ghost use Rattle.sk_model.specs.Causes.{HasCause};
ghost use Rattle.sk_io.specs.Standard.{writer_of};

use super::expect;
use sk_io::{
    BoundFault, Failed, MemSink, MemSource, Outlet, Sink, Source, StdSink, StdSource, SureSource,
    read_within, write_all,
};
use std::alloc::Global;
use std::fs::File;
use std::io::{ErrorKind, Write};
use std::process::Abort;
use std::test::Fail;
use std::{fs, io};

// All that a source gives, by pieces of up to four bytes. A read that fails is tried again.
pub fn drained<S: Source>(alloc: Global, source: &mut S) -> Result<Vec<u8>, Fail> {
    let mut all = Vec::new(alloc);
    let mut buf = [0; 4];
    'read: for _ in 0..100 {
        match source.read(&mut buf) {
            Ok(0) => break,
            Ok(n) => all.extend_from_slice(&buf[..n])?,
            Err(Failed) => {}
        }
    }
    Ok(all)
}

// A source of a text in pieces of that many bytes, whose reads of these numbers fail.
pub fn source_of(alloc: Global, text: &[u8], piece: usize, fails: &[u64]) -> Result<MemSource, Fail>
    requires { 0 < piece }
{
    let text = text.to_vec(alloc)?;
    Ok(MemSource::new(text, piece, fails.to_vec(alloc)?))
}

#[test]
fn reads_in_pieces_and_fails_at_its_numbers(rt: HostRuntime) -> Result<(), Fail> {
    let alloc = rt.alloc();
    let mut source = source_of(alloc, b"hello", 3, &[1, 3])?;
    let mut buf = [0; 4];
    expect(&rt, source.read(&mut buf), Ok(3));
    expect(&rt, source.read(&mut buf), Err(Failed));
    expect(&rt, source.read(&mut buf), Ok(2));
    expect(&rt, source.read(&mut buf), Err(Failed));
    expect(&rt, source.read(&mut buf), Ok(0));
    expect(&rt, buf, [b'l', b'o', b'l', 0]);
    Ok(())
}

// Expects that a source gives this text in all.
pub fn expect_all<S: Source>(
    rt: &impl Abort,
    alloc: Global,
    source: &mut S,
    text: &[u8],
) -> Result<(), Fail> {
    expect(rt, drained(alloc, source)?.as_slice(), text);
    Ok(())
}

#[test]
fn reads_after_reads_that_fail(rt: HostRuntime) -> Result<(), Fail> {
    let alloc = rt.alloc();
    let mut source = source_of(alloc, b"hello", 3, &[0, 2])?;
    expect_all(&rt, alloc, &mut source, b"hello")
}

#[test]
fn a_sure_source_gives_all(rt: HostRuntime) -> Result<(), Fail> {
    let alloc = rt.alloc();
    let mut source = SureSource::new(b"estimate".to_vec(alloc)?);
    let mut buf = [0; 5];
    expect(&rt, source.read(&mut buf), Ok(5));
    expect(&rt, source.read(&mut buf), Ok(3));
    expect(&rt, source.read(&mut buf), Ok(0));
    let mut source = SureSource::new(b"estimate".to_vec(alloc)?);
    expect_all(&rt, alloc, &mut source, b"estimate")
}

#[test]
fn reads_within_a_bound(rt: HostRuntime) -> Result<(), Fail> {
    let alloc = rt.alloc();
    let mut source = source_of(alloc, b"estimate", 8, &[1])?;
    let mut piece = [0; 4];
    let read_fault = Err(BoundFault::ReadFault);
    expect(&rt, read_within(&mut source, &mut piece, 3), Ok(3));
    expect(&rt, read_within(&mut source, &mut piece, 9), read_fault);
    let too_much = Err(BoundFault::TooMuch);
    expect(&rt, read_within(&mut source, &mut piece, 0), too_much);
    expect(&rt, read_within(&mut source, &mut piece, 9), Ok(4));
    expect(&rt, read_within(&mut source, &mut piece, 9), Ok(1));
    expect(&rt, read_within(&mut source, &mut piece, 9), Ok(0));
    expect(&rt, piece, *b"emat");
    Ok(())
}

#[test]
fn writes_until_the_room_is_full(rt: HostRuntime) -> Result<(), Fail> {
    let alloc = rt.alloc();
    let mut sink = MemSink::new(alloc, 5, 2, Vec::new(alloc))?;
    expect(&rt, write_all(&mut sink, b"estimate"), Err(Failed));
    expect(&rt, sink.written(), b"estim".as_slice());
    Ok(())
}

#[test]
fn writes_fail_at_their_numbers(rt: HostRuntime) -> Result<(), Fail> {
    let alloc = rt.alloc();
    let mut sink = MemSink::new(alloc, 8, 3, [1].to_vec(alloc)?)?;
    expect(&rt, sink.write(b"estimate"), Ok(3));
    expect(&rt, sink.write(b"imate"), Err(Failed));
    expect(&rt, write_all(&mut sink, b"imate"), Ok(()));
    expect(&rt, sink.written(), b"estimate".as_slice());
    Ok(())
}

// Reads once, as a function does that knows its source by the trait alone.
pub fn piece_of<S: Source>(source: &mut S, piece: &mut [u8]) -> Result<usize, Failed>
    requires { 0 < length piece.old }
    ensures bound { ReadsAtMost result piece.new }
    ensures bytes { ReadConsumes (S.left source.old) (S.left source.new) result piece.new }
    ensures cause { HasCause (S.faults source.old) (S.faults source.new) result }
    ensures stays { S.stands_on source.new ≡ S.stands_on source.old }
{
    source.read(piece)
}

#[test]
fn a_file_is_written_and_read_back(rt: HostRuntime) -> Result<(), Fail> {
    let alloc = rt.alloc();
    let mut sink = StdSink::new(File::create(&rt, "streams.txt")?);
    expect(&rt, handed_on(&mut sink, b"one fish two fish\n"), Ok(()));
    let mut source = StdSource::new(File::open(&rt, "streams.txt")?);
    expect_all(&rt, alloc, &mut source, b"one fish two fish\n")?;
    expect(&rt, sink.write(b"\n"), Ok(1));
    fs::remove_file(&rt, "streams.txt")?;
    Ok(())
}

#[test]
fn errors_of_std_are_faults(rt: HostRuntime) -> Result<(), Fail> {
    fs::write(&rt, "closed.txt", "x")?;
    let mut sink = StdSink::new(File::open(&rt, "closed.txt")?);
    expect(&rt, sink.write(b"y"), Err(Failed));
    let mut byte = [0; 1];
    let mut sink = StdSink::new(byte.as_mut_slice());
    expect(&rt, sink.write(b"yz"), Ok(1));
    expect(&rt, sink.write(b"z"), Err(Failed));
    let mut source = StdSource::new(File::create(&rt, "closed.txt")?);
    expect(&rt, source.read(&mut [0; 1]), Err(Failed));
    fs::remove_file(&rt, "closed.txt")?;
    Ok(())
}

// Writes all of a text that is not empty. What was handed to the writer is flushed, or there is a fault.
fn handed_on<W: Outlet>(sink: &mut StdSink<W>, bytes: &[u8]) -> Result<(), Failed>
    requires { 0 < length bytes.now }
    ensures bytes { OnOk result (Appends (W.contents (writer_of sink.old)) (W.contents (writer_of sink.new)) bytes.now) }
    ensures flushed { OnOk result (IsAtEnd (W.held (writer_of sink.new))) }
    ensures fault { let faults = ⟦<StdSink<W> as Sink>⟧.faults in HasCause (faults sink.old) (faults sink.new) result }
{
    let mut at = 0;
    'write: while at < bytes.len() {
        at += sink.write(&bytes[at..])?;
    }
    Ok(())
}

// A writer that takes all, and can't hand it on.
#[derive(Drop)]
struct Clogged;

impl Write for Clogged {
    fn write(&mut self, bytes: &[u8]) -> io::Result<usize> {
        Ok(bytes.len())
    }

    fn flush(&mut self) -> io::Result<()> {
        Err(io::Error::from(ErrorKind::BrokenPipe))
    }
}

#[test]
fn a_flush_that_fails_is_a_fault(rt: HostRuntime) -> Result<(), Fail> {
    let mut sink = StdSink::new(Clogged);
    expect(&rt, sink.write(b"estimate"), Err(Failed));
    expect(&rt, handed_on(&mut sink, b"estimate"), Err(Failed));
    Ok(())
}

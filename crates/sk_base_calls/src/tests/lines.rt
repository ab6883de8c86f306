ghost use Rattle.std.specs.Prelude.{◌≡◌, ◌≤◌, ◌++◌, ◌∷◌, [], ℕ, List, map, All, length, IfOk, OnOk, Err, false, true};
ghost use Rattle.std.specs.List.{flat_map};
ghost use Rattle.sk_model.specs.Lines.{lines_of, open_lines_of};
ghost use Rattle.sk_lines.specs.Cutter.{Follows, IsLongAfter};

use super::streams::source_of;
use super::{expect, expect_at};
use sk_io::{BoundFault, MemSource};
use sk_lines::{Ending, Lines, MOST_LIMIT, MOST_PIECE, Next};
use sk_model::OutOfMemory;
use std::alloc::Global;
use std::process::Abort;
use std::test::Fail;

// Why the lines of a text are not all there.
#[derive(Clone, Copy, Debug, PartialEq, Eq)]
enum Stop {
    OutOfMemory,
    Long(u64),
}

impl From<OutOfMemory> for Stop {
    ghost use Rattle.std.specs.Prelude.{◌≡◌};
    ghost use Rattle.sk_base_calls.specs.declared.tests.lines.Stop.{Stop};

    ghost from_gives = { λ _ stop. stop ≡ Stop.OutOfMemory };

    fn from(_: OutOfMemory) -> Self {
        Stop::OutOfMemory
    }
}

// The lines of a text that comes in these pieces.
fn lines_of_pieces(alloc: Global, limit: usize, pieces: &[&[u8]]) -> Result<Vec<Vec<u8>>, Stop>
    requires some { 1 ≤ limit }
    requires most { limit ≤ MOST_LIMIT }
    requires sizes { All (λ piece. length piece.now ≤ MOST_PIECE) pieces.now }
    ensures lines { IfOk result (λ all. map (λ line. line.items) all.items
        ≡ lines_of (flat_map (λ piece. piece.now) pieces.now)) }
    ensures long { (n : ℕ) → result ≡ Err (Stop.Long n)
        → (given : List (List ℕ)) × IsLongAfter limit n given (lines_of (flat_map (λ piece. piece.now) pieces.now)) }
{
    let mut lines = Lines::new(alloc, limit)?;
    let mut all = Vec::new(alloc);
    'pieces: for piece in pieces {
        lines.feed(piece);
        take_lines(alloc, &mut lines, &mut all)?;
    }
    take_last(alloc, &mut lines, &mut all)?;
    Ok(all)
}

// Takes the lines that are complete.
fn take_lines(alloc: Global, lines: &mut Lines, all: &mut Vec<Vec<u8>>) -> Result<(), Stop>
    requires { lines.old.ended ≡ false }
    ensures follows { OnOk result ((text : List ℕ) → Follows lines.old (map (λ line. line.items) all.old.items) text
        → Follows lines.new (map (λ line. line.items) all.new.items) text) }
    ensures hungry { OnOk result (lines.new.hungry ≡ true) }
    ensures long { (n : ℕ) → result ≡ Err (Stop.Long n)
        → (text : List ℕ) → Follows lines.old (map (λ line. line.items) all.old.items) text
        → (given : List (List ℕ)) × IsLongAfter lines.old.limit n given (open_lines_of text) }
    ensures limit { lines.new.limit ≡ lines.old.limit }
    ensures ended { lines.new.ended ≡ false }
{
    'lines: loop {
        match lines.next() {
            Next::Line => keep_line(alloc, lines, all)?,
            Next::More => return Ok(()),
            Next::Long(n) => return Err(Stop::Long(n)),
        }
    }
}

// Takes the last piece.
fn take_last(alloc: Global, lines: &mut Lines, all: &mut Vec<Vec<u8>>) -> Result<(), Stop>
    requires { lines.old.hungry ≡ true }
    ensures lines { OnOk result ((text : List ℕ) → Follows lines.old (map (λ line. line.items) all.old.items) text
        → lines_of text ≡ map (λ line. line.items) all.new.items) }
    ensures long { (n : ℕ) → result ≡ Err (Stop.Long n)
        → (text : List ℕ) → Follows lines.old (map (λ line. line.items) all.old.items) text
        → (given : List (List ℕ)) × IsLongAfter lines.old.limit n given (lines_of text) }
{
    match lines.end() {
        Next::Line => keep_line(alloc, lines, all)?,
        Next::More => {}
        Next::Long(n) => return Err(Stop::Long(n)),
    }
    Ok(())
}

fn keep_line(alloc: Global, lines: &Lines, all: &mut Vec<Vec<u8>>) -> Result<(), OutOfMemory>
    requires { lines.now.last ≡ Next.Line }
    ensures { OnOk result (map (λ line. line.items) all.new.items
        ≡ map (λ line. line.items) all.old.items ++ lines.now.line ∷ []) }
{
    all.push(Vec::from_slice(alloc, lines.line())?)?;
    Ok(())
}

// Each line of a text that comes in pieces, followed by `|`, or the number of the line that is too
// long. A line of more than ten bytes is shown by its length.
fn shown(alloc: Global, limit: usize, pieces: &[&[u8]]) -> Result<Vec<u8>, Fail>
    requires some { 1 ≤ limit }
    requires most { limit ≤ MOST_LIMIT }
    requires sizes { All (λ piece. length piece.now ≤ MOST_PIECE) pieces.now }
{
    match lines_of_pieces(alloc, limit, pieces) {
        Ok(lines) => joined(alloc, &lines),
        Err(Stop::Long(n)) => Ok(format!(in alloc; "long {n}")?.into_bytes()),
        Err(Stop::OutOfMemory) => Err(OutOfMemory.into()),
    }
}

fn joined(alloc: Global, lines: &[Vec<u8>]) -> Result<Vec<u8>, Fail> {
    let mut text = Vec::new(alloc);
    for line in lines {
        if line.len() > 10 {
            text.extend_from_slice(format!(in alloc; "{}", line.len())?.as_bytes())?;
        } else {
            text.extend_from_slice(line)?;
        }
        text.push(b'|')?;
    }
    Ok(text)
}

#[test]
fn every_cut_gives_the_same_lines(rt: HostRuntime) -> Result<(), Fail> {
    let text = b"\na\r\na";
    for cut in 0..=text.len() {
        let (front, back) = text.split_at(cut);
        let lines = shown(rt.alloc(), 65_536, &[front, back])?;
        expect_at(&rt, cut, lines.as_slice(), b"|a|a|".as_slice());
    }
    Ok(())
}

#[test]
fn lines_at_the_limit(rt: HostRuntime) -> Result<(), Fail> {
    let rows: [(&[u8], &[u8]); 12] = [
        (b"", b""),
        (b"\n", b"|"),
        (b"abcd\n", b"abcd|"),
        (b"abcd\r\n", b"abcd|"),
        (b"abcd", b"abcd|"),
        (b"abcd\r", b"long 1"),
        (b"abcd\r\r\n", b"long 1"),
        (b"abcde", b"long 1"),
        (b"a\r\r\n", b"a\r|"),
        (b"a\rb\n", b"a\rb|"),
        (b"a\n\r", b"a|\r|"),
        (b"a\n\nabcde\nb", b"long 3"),
    ];
    for (text, want) in rows {
        let lines = shown(rt.alloc(), 4, &[text])?;
        expect(&rt, lines.as_slice(), want);
    }
    Ok(())
}

// The same of `len` bytes and what comes after them, with `len` as the limit.
fn shown_behind(alloc: Global, len: usize, end: &[u8]) -> Result<Vec<u8>, Fail>
    requires some { 1 ≤ len }
    requires most { len ≤ MOST_PIECE }
    requires end { length end.now ≤ MOST_PIECE }
{
    let line = vec![in alloc; b'x'; len]?;
    shown(alloc, len, &[&line, end])
}

#[test]
fn lines_at_the_limit_of_records(rt: HostRuntime) -> Result<(), Fail> {
    let rows: [(&[u8], &[u8]); 7] = [
        (b"\n", b"65536|"),
        (b"\r\n", b"65536|"),
        (b"", b"65536|"),
        (b"\r", b"long 1"),
        (b"\r\r\n", b"long 1"),
        (b"x", b"long 1"),
        (b"\r\nx", b"65536|x|"),
    ];
    for (end, want) in rows {
        let lines = shown_behind(rt.alloc(), 65_536, end)?;
        expect(&rt, lines.as_slice(), want);
    }
    Ok(())
}

// Expects that the next line is not complete.
fn expect_more(rt: &impl Abort, lines: &mut Lines)
    requires { lines.old.ended ≡ false }
    ensures hungry { lines.new.hungry ≡ true }
    ensures ended { lines.new.ended ≡ false }
{
    match lines.next() {
        Next::More => {}
        Next::Line | Next::Long(_) => panic!(rt; "a line is complete or too long"),
    }
}

#[test]
fn a_long_line_is_known_by_its_first_byte_too_many(rt: HostRuntime) -> Result<(), Fail> {
    let mut lines = Lines::new(rt.alloc(), 4)?;
    lines.feed(b"ab\r\nabcd");
    expect(&rt, lines.next(), Next::Line);
    expect(&rt, (lines.number(), lines.ending()), (1, Ending::CrLf));
    expect_more(&rt, &mut lines);
    lines.feed(b"\r");
    expect_more(&rt, &mut lines);
    lines.feed(b"x");
    expect(&rt, lines.next(), Next::Long(2));
    expect(&rt, lines.next(), Next::Long(2));
    Ok(())
}

// How the last line ended, asked after one more piece.
fn ending_behind(lines: &mut Lines, piece: &[u8]) -> Ending
    requires size { length piece.now ≤ MOST_PIECE }
    requires hungry { lines.old.hungry ≡ true }
    requires not_ended { lines.old.ended ≡ false }
    ensures { result ≡ lines.old.ending }
{
    lines.feed(piece);
    lines.ending()
}

// Expects that the next read of a source fails.
fn expect_read_fault(rt: &impl Abort, lines: &mut Lines, source: &mut MemSource)
    requires hungry { lines.old.hungry ≡ true }
    requires not_ended { lines.old.ended ≡ false }
    ensures hungry { lines.new.hungry ≡ true }
    ensures ended { lines.new.ended ≡ false }
{
    match lines.feed_from(source, 9) {
        Err(BoundFault::ReadFault) => {}
        Err(BoundFault::TooMuch) | Ok(_) => panic!(rt; "the read did not fail"),
    }
}

// A read that fails in mid-stream leaves what is held, and the next continues after it.
#[test]
fn lines_of_a_source_that_fails(rt: HostRuntime) -> Result<(), Fail> {
    let alloc = rt.alloc();
    let mut source = source_of(alloc, b"ab\ncde", 4, &[1])?;
    let mut lines = Lines::new(alloc, 4)?;
    expect(&rt, lines.feed_from(&mut source, 9), Ok(4));
    expect(&rt, lines.next(), Next::Line);
    expect_more(&rt, &mut lines);
    expect_read_fault(&rt, &mut lines, &mut source);
    expect(&rt, lines.rest(), b"c".as_slice());
    expect(&rt, lines.feed_from(&mut source, 1), Ok(1));
    expect(&rt, lines.rest(), b"cd".as_slice());
    Ok(())
}

// How a line ended, asked after the piece that follows it.
#[test]
fn a_piece_more_keeps_the_ending(rt: HostRuntime) -> Result<(), Fail> {
    let mut lines = Lines::new(rt.alloc(), 4)?;
    lines.feed(b"ab\r\n");
    expect(&rt, lines.next(), Next::Line);
    expect_more(&rt, &mut lines);
    expect(&rt, ending_behind(&mut lines, b"cd"), Ending::CrLf);
    Ok(())
}

#[test]
fn lines_by_their_bytes(rt: HostRuntime) -> Result<(), Fail> {
    // how many lines are wanted at most, how many are given, and what is left
    let rows: [(usize, usize, &[u8]); 4] = [
        (0, 0, b"a\r\nbb\n\nccc"),
        (1, 1, b"bb\n\nccc"),
        (2, 2, b"\nccc"),
        (9, 3, b"ccc"),
    ];
    for (most, count, rest) in rows {
        let mut lines = Lines::new(rt.alloc(), 16)?;
        lines.feed(b"a\r\nbb\n\nccc");
        expect(&rt, lines.next_run(most), count);
        expect(&rt, lines.rest(), rest);
        expect(&rt, lines.front().len() + lines.rest().len(), 10);
    }
    Ok(())
}

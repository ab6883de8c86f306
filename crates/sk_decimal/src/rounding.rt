// The sink.
ghost use Rattle.std.specs.Prelude.{◌≡◌, ◌≢◌, ◌+◌, ◌-◌, ◌<◌, ◌≤◌, ℕ, List, [], ◌++◌, Some, IfOk, IsErr, OnOk, OnErr, codes, fold, length, take, nat_lt, true, false};
ghost use Rattle.std.specs.Io.{WritesAtMost};
ghost use Rattle.std.specs.Io.KnownBytes.{Appends, WriteAppends};
ghost use Rattle.sk_lines.specs.Cutter.{HasNoLf};
ghost use Rattle.sk_model.specs.Causes.{HasCause, AppendsPart};
ghost use Rattle.sk_decimal.specs.Decimal.{most_digits};
ghost use Rattle.sk_decimal.specs.Rounded.{Passage, grown, longest_line, rounded_line, settled_of, whole_of};
ghost use Rattle.sk_decimal.specs.Account.{Account, report, Reports, with_text, HasSettled, HasStopped, IsFinished};
ghost use Rattle.sk_decimal.specs.Inside.{IsHeld, IsPiece};

use crate::account::Told;
use crate::buffer::{LONGEST_LINE, Line};
use crate::places::Digits;
use crate::words::round_last;
use sk_io::{Failed, Sink, count_fault, write_all};
use std::marker::Model;
use std::snapshot::Snapshot;

/// A sink over another: it hands each line on as soon as LF ends it, its last word rounded if that is a fraction. It
/// holds the piece after the last LF, which `finish` hands on. A line of `LONGEST_LINE` bytes or more passes as it is.
/// Once a write has failed each later one fails.
#[derive(Drop)]
pub struct Rounding<O: Sink> {
    out: O,
    digits: Digits,
    line: Line,
    // Whether the start of an open line has passed already.
    passing: bool,
    faults: u64,
    start: Snapshot<O>,
    text: Told,
}

impl<O: Sink> Model for Rounding<O> {
    ghost use Rattle.sk_decimal.specs.Account.{Rounder};
    ghost use Rattle.sk_decimal.specs.Inside.{IsSound};

    ghost Value = { Rounder };

    ghost view = { λ r. record {
      account = record { digits = r.digits.count; start = record { written = O.written r.start.value; faults = O.faults r.start.value }; text = r.text };
      faults = r.faults;
      below = record { written = O.written r.out; faults = O.faults r.out };
    } };

    ghost invariant = { λ r. IsSound
        (record { digits = r.digits.count; start = record { written = O.written r.start.value; faults = O.faults r.start.value }; text = r.text })
        r.line r.passing r.faults
        (record { written = O.written r.out; faults = O.faults r.out }) };
}

impl<O: Sink> Rounding<O> {
    /// A sink over `out` that rounds to this many digits, with the memory for a line.
    pub fn new(out: O, mut line: Line, digits: Digits) -> Self
        ensures digits { result.account.digits ≡ digits.count }
        ensures start { result.account.start ≡ record { written = O.written out; faults = O.faults out } }
        ensures text { result.account.text ≡ [] }
        ensures faults { result.faults ≡ 0 }
    {
        line.cut(0);
        let start = Snapshot::of(&out);
        Rounding {
            out,
            digits,
            line,
            passing: false,
            faults: 0,
            start,
            text: Told::new(),
        }
    }

    /// The sink below, which has what is settled of the text so far, or has failed.
    pub fn below(&self) -> &O
        ensures settled { (before : Account) (text : List ℕ) → Reports before self.now.account text → self.now.faults ≡ 0
            → HasSettled (with_text before text) (record { written = O.written result.now; faults = O.faults result.now }) }
        ensures stopped { (before : Account) (text : List ℕ) → Reports before self.now.account text → 0 < self.now.faults
            → HasStopped (with_text before text) (record { written = O.written result.now; faults = O.faults result.now }) }
    {
        &self.out
    }

    /// Hands on the piece that is held, and returns the sink below.
    pub fn finish(self) -> (O, Result<(), Failed>)
        ensures done { (before : Account) (text : List ℕ) → Reports before self.account text
            → IsFinished (with_text before text) (record { written = O.written result.0; faults = O.faults result.0 }) result.1 }
        ensures stopped { 0 < self.faults → IsErr result.1 }
    {
        let Rounding {
            mut out,
            digits: _,
            line,
            passing: _,
            faults,
            start: _,
            text: _,
        } = self;
        if faults > 0 {
            return (out, Err(Failed));
        }
        let result = write_all(&mut out, line.bytes());
        (out, result)
    }
}

impl<O: Sink> Sink for Rounding<O> {
    ghost use Rattle.std.specs.Prelude.{Some};
    ghost use Rattle.sk_decimal.specs.Account.{report};

    ghost written = { λ r. Some (report r.account) };

    ghost faults = { λ r. r.faults };

    /// Takes the bytes up to and with the first LF.
    fn write(&mut self, bytes: &[u8]) -> Result<usize, Failed> {
        if self.faults > 0 {
            return Err(count_fault(&mut self.faults));
        }
        let piece = &bytes[..piece_len(bytes)];
        match take_piece(
            &mut self.out,
            &mut self.line,
            &mut self.passing,
            self.digits.count,
            piece,
        ) {
            Ok(()) => {
                self.text.add(piece);
                Ok(piece.len())
            }
            Err(_) => Err(count_fault(&mut self.faults)),
        }
    }
}

// How many bytes stand up to and with the first LF.
fn piece_len(bytes: &[u8]) -> usize
    requires { 0 < length bytes.now }
    ensures within { result ≤ length bytes.now }
    ensures piece { IsPiece (take result bytes.now) }
{
    'byte: for i in 0..bytes.len() {
        if bytes[i] == b'\n' {
            return i + 1;
        }
    }
    bytes.len()
}

// Holds a piece, or hands on what it ends.
fn take_piece<O: Sink>(
    out: &mut O,
    line: &mut Line,
    passing: &mut bool,
    digits: u32,
    piece: &[u8],
) -> Result<(), Failed>
    requires digits { digits ≤ most_digits }
    requires piece { IsPiece piece.now }
    ensures held { (p : Passage) → IsHeld p.piece line.old passing.old
        → OnOk result (IsHeld (fold (grown digits) p piece.now).piece line.new passing.new) }
    ensures ok { (p : Passage) → IsHeld p.piece line.old passing.old
        → OnOk result ((bytes : List ℕ) × Appends (O.written out.old) (O.written out.new) bytes
        × (settled_of (fold (grown digits) p piece.now) ≡ settled_of p ++ bytes)) }
    ensures err { (p : Passage) → IsHeld p.piece line.old passing.old
        → OnErr result ((bytes : List ℕ) × AppendsPart (O.written out.old) (O.written out.new) bytes
        × (whole_of (fold (grown digits) p piece.now) ≡ settled_of p ++ bytes)) }
    ensures cause { HasCause (O.faults out.old) (O.faults out.new) result }
{
    if must_pass(line, *passing, piece.len()) {
        *passing = !ends_line(piece);
        return pass_on(out, line, piece);
    }
    if !ends_line(piece) {
        line.push(piece);
        return Ok(());
    }
    line.push(&piece[..piece.len() - 1]);
    end_line(out, line, digits)
}

// Whether the open piece is too long to be held with this many bytes more.
fn must_pass(line: &Line, passing: bool, more: usize) -> bool
    ensures long { (piece : List ℕ) → IsHeld piece line.now passing → result ≡ nat_lt longest_line (length piece + more) }
    ensures fits { result ≡ false → length line.now + more ≤ longest_line }
{
    passing || line.len().saturating_add(more) > LONGEST_LINE
}

// Whether LF is the last byte.
fn ends_line(piece: &[u8]) -> bool
    requires { IsPiece piece.now }
    ensures ended { result ≡ true → piece.now ≡ take (length piece.now - 1) piece.now ++ codes "\n" }
    ensures open { result ≡ false → HasNoLf piece.now }
{
    piece[piece.len() - 1] == b'\n'
}

// Hands on what is held, and then a piece.
fn pass_on<O: Sink>(out: &mut O, line: &mut Line, piece: &[u8]) -> Result<(), Failed>
    ensures ok { OnOk result (Appends (O.written out.old) (O.written out.new) (line.old ++ piece.now)) }
    ensures err { OnErr result (AppendsPart (O.written out.old) (O.written out.new) (line.old ++ piece.now)) }
    ensures line { OnOk result (line.new ≡ []) }
    ensures cause { HasCause (O.faults out.old) (O.faults out.new) result }
{
    write_all(out, line.bytes())?;
    line.cut(0);
    write_all(out, piece)
}

// Hands on the line that is held, rounded and with its LF.
fn end_line<O: Sink>(out: &mut O, line: &mut Line, digits: u32) -> Result<(), Failed>
    requires digits { digits ≤ most_digits }
    requires short { length line.old < longest_line }
    ensures ok { OnOk result (Appends (O.written out.old) (O.written out.new) (rounded_line digits line.old ++ codes "\n")) }
    ensures err { OnErr result (AppendsPart (O.written out.old) (O.written out.new) (rounded_line digits line.old ++ codes "\n")) }
    ensures line { line.new ≡ [] }
    ensures cause { HasCause (O.faults out.old) (O.faults out.new) result }
{
    round_last(line, digits);
    line.push(b"\n");
    let result = write_all(out, line.bytes());
    line.cut(0);
    result
}

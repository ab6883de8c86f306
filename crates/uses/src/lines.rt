//! A source of one's own, and a taker of its lines.
ghost use Rattle.std.specs.Prelude.{◌≡◌, ◌<◌, ℕ, List, [], ◌++◌, min, length, take, drop, IfOk, true, false};
ghost use Rattle.std.specs.Io.KnownBytes.{Consumes, IsAtEnd};
ghost use Rattle.sk_model.specs.Causes.{HasCauseIn};
ghost use Rattle.sk_model.specs.Lines.{lines_of};
ghost use Rattle.sk_io.specs.Memory.{unread_text};
ghost use Rattle.sk_lines.specs.Runs.{AreEven, IsRun};
ghost use Rattle.uses.specs.Lengths.{longest_of};

use sk_fill::Window;
use sk_io::{Failed, Source};
use sk_lines::even_len;
use sk_model::limits::SOURCE_LIMIT;
use sk_read::{Fault, UnitTaker, Units, read_units};
use std::alloc::Global;
use std::marker::Model;

/// The most bytes that `Threes` gives a read.
const MOST_GIVEN: usize = 3;

/// A text that gives at most three bytes a read. Contracts see the bytes that are left and how many the last read gave.
#[derive(Drop)]
pub struct Threes {
    bytes: Vec<u8>,
    at: usize,
    // how many bytes the last read gave
    last: usize,
}

impl Model for Threes {
    ghost use Rattle.std.specs.Prelude.{◌≤◌, drop, vec_len};
    ghost use Rattle.sk_io.specs.Memory.{TextState};

    ghost Value = { TextState };

    ghost view = { λ t. record { left = drop t.at t.bytes.items; last = t.last } };

    ghost invariant = { λ t. t.at ≤ vec_len t.bytes };
}

impl Threes {
    /// All of a text is left.
    pub fn new(bytes: Vec<u8>) -> Threes
        ensures { result ≡ unread_text bytes.items }
    {
        Threes {
            bytes,
            at: 0,
            last: 0,
        }
    }

    // Moves bytes to the start of `buf`, none only at the end.
    fn give(&mut self, buf: &mut [u8]) -> usize
        ensures count { result ≡ min (min (length buf.old) 3) (length self.old.left) }
        ensures bytes { self.old.left ≡ take result buf.new ++ self.new.left }
        ensures last { self.new.last ≡ result }
        ensures end { result ≡ 0 → 0 < length buf.old → self.new.left ≡ [] }
    {
        let (_, left) = self.bytes.split_at(self.at);
        let n = copy_front(left, buf);
        self.at += n;
        self.last = n;
        n
    }
}

impl Source for Threes {
    ghost use Rattle.std.specs.Prelude.{Some};
    ghost use Rattle.sk_io.specs.Base.{nothing};

    ghost left = { λ t. Some t.left };

    ghost faults = { λ _. 0 };

    ghost last = { λ t. t.last };

    ghost stands_on = { λ _. nothing };

    fn read(&mut self, buf: &mut [u8]) -> Result<usize, Failed> {
        Ok(self.give(buf))
    }
}

// Copies bytes from the start of one to that of another, at most three, and returns how many.
fn copy_front(from: &[u8], buf: &mut [u8]) -> usize
    ensures count { result ≡ min (min (length buf.old) 3) (length from.now) }
    ensures bytes { from.now ≡ take result buf.new ++ drop result from.now }
    ensures end { result ≡ 0 → 0 < length buf.old → from.now ≡ [] }
{
    let n = buf.len().min(MOST_GIVEN).min(from.len());
    let (front, _) = from.split_at(n);
    buf[..n].copy_from_slice(front);
    n
}

/// How many bytes the longest line has.
#[derive(Drop)]
struct Longest {
    bytes: usize,
}

impl UnitTaker for Longest {
    ghost use Rattle.std.specs.Prelude.{◌≡◌, None, []};
    ghost use Rattle.uses.specs.Lengths.{longest_of};

    ghost went = { λ _ s lines. s.bytes ≡ longest_of lines };

    ghost stopped = { λ _ _ _ _ _. ⊥ };

    ghost stands_on = { λ _. record { kind = None; borrows = []; numbers = [] } };

    fn take(&mut self, line: &[u8], _number: u64) -> Result<(), Fault> {
        self.bytes = self.bytes.max(line.len());
        Ok(())
    }
}

/// How many lines there are, and how many bytes the longest has.
#[derive(Clone, Copy, Debug, PartialEq, Eq)]
pub struct Measured {
    pub lines: u64,
    pub longest: usize,
}

/// Measures the lines of a source of fewer than 2^40 bytes.
pub fn measure_lines<S: Source>(alloc: Global, source: &mut S) -> Result<Measured, Fault>
    ensures measured { IfOk result (λ m. (bytes : List ℕ)
        × Consumes (S.left source.old) (S.left source.new) bytes × IsAtEnd (S.left source.new)
        × (m.lines ≡ length (lines_of bytes)) × (m.longest ≡ longest_of (lines_of bytes))) }
    ensures cause { HasCauseIn Fault.ReadFault (S.faults source.old) (S.faults source.new) result }
{
    let mut longest = Longest { bytes: 0 };
    let lines = read_units(alloc, Units::Lines, SOURCE_LIMIT, source, &mut longest)?;
    Ok(Measured {
        lines,
        longest: longest.bytes,
    })
}

/// Measures the lines of a text.
pub fn measure_text(alloc: Global, text: Vec<u8>) -> Result<Measured, Fault>
    ensures lines { IfOk result (λ m. m.lines ≡ length (lines_of text.items)) }
    ensures longest { IfOk result (λ m. m.longest ≡ longest_of (lines_of text.items)) }
{
    let mut source = Threes::new(text);
    measure_lines(alloc, &mut source)
}

/// Whether the lines of a run, this many, have one length.
pub fn have_one_length(run: &[u8], count: usize) -> bool
    requires some { 0 < count }
    requires run { IsRun count run.now }
    ensures yes { result ≡ true → (len : ℕ) × AreEven count len run.now }
    ensures no { result ≡ false → (len : ℕ) → ¬ AreEven count len run.now }
{
    even_len(run, count).is_some()
}

/// The bytes of all lines of a window, of which none lies apart.
pub fn bytes_of_all(window: &Window) -> &[u8]
    requires together { window.now.apart ≡ 0 }
    ensures lines { lines_of result.now ≡ window.now.lines }
    ensures run { IsRun (length window.now.lines) result.now }
{
    match window.run(0, window.len()) {
        Some(run) => run,
        None => unreachable!(),
    }
}

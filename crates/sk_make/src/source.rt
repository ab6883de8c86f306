// The source.
ghost use Rattle.std.specs.Prelude.{◌≡◌, ◌≢◌, ◌+◌, ◌<◌, ◌≤◌, ◌^◌, [], ◌++◌, Some, Ok, IfOk, IsOk, min, length, take, drop};
ghost use Rattle.std.specs.Io.{ReadsAtMost};
ghost use Rattle.std.specs.Io.KnownBytes.{ReadConsumes};
ghost use Rattle.sk_model.specs.Causes.{HasCause};
ghost use Rattle.sk_io.specs.Base.{nothing, LastRead};
ghost use Rattle.sk_io.specs.Memory.{unread_text};
ghost use Rattle.sk_quant.specs.Limits.{key_end};
ghost use Rattle.sk_make.specs.Made.{made_text, text_of, numbers_from, most_made};

use crate::line::Line;
use crate::numbers::Numbers;
use sk_io::{Failed, Source};
use sk_model::OutOfMemory;
use std::marker::Model;

/// How many numbers a text is made of at most.
pub const MOST_MADE: u64 = 10_000_000;

/// A source that makes its text as it is read: numbers of a key, a line each. It never fails, and holds one line at
/// a time. Contracts see the bytes that are left and how many the last read gave.
#[derive(Drop)]
pub struct MakeSource {
    line: Line,
    numbers: Numbers,
    // how many lines are still to be made
    due: u64,
    // how many bytes the last read gave
    last: usize,
}

impl Model for MakeSource {
    ghost use Rattle.std.specs.Prelude.{◌+◌, ◌≤◌, ◌++◌};
    ghost use Rattle.sk_io.specs.Memory.{TextState};
    ghost use Rattle.sk_make.specs.Made.{text_of, numbers_from, most_made};

    ghost Value = { TextState };

    ghost view = { λ s. record { left = s.line ++ text_of (numbers_from s.numbers.key s.numbers.next s.due); last = s.last } };

    ghost invariant = { λ s. s.numbers.next + s.due ≤ most_made };
}

impl MakeSource {
    /// A source of the first `n` numbers of a key.
    pub fn new(n: u64, key: u64) -> Result<Self, OutOfMemory>
        requires lines { n ≤ most_made }
        requires key { key < key_end }
        ensures text { IfOk result (λ source. source ≡ unread_text (made_text n key)) }
        ensures ok { IsOk result }
    {
        Ok(MakeSource {
            line: Line::new(),
            numbers: Numbers::new(key),
            due: n,
            last: 0,
        })
    }

    // Gives a prefix of what is left, and none only at the end.
    fn give(&mut self, buf: &mut [u8]) -> usize
        requires { 0 < length buf.old }
        ensures fits { result ≤ length buf.new }
        ensures bytes { self.old.left ≡ take result buf.new ++ self.new.left }
        ensures end { result ≡ 0 → self.new.left ≡ [] }
    {
        refill(&mut self.line, &mut self.numbers, &mut self.due);
        self.line.give(buf)
    }
}

// Makes the next line if nothing is left of the last one.
fn refill(line: &mut Line, numbers: &mut Numbers, due: &mut u64)
    requires { numbers.old.next + due.old ≤ most_made }
    ensures text { line.new ++ text_of (numbers_from numbers.new.key numbers.new.next due.new)
        ≡ line.old ++ text_of (numbers_from numbers.old.key numbers.old.next due.old) }
    ensures end { line.new ≡ [] → due.new ≡ 0 }
    ensures count { numbers.new.next + due.new ≡ numbers.old.next + due.old }
{
    if line.is_empty() && *due > 0 {
        line.set(numbers.make());
        *due -= 1;
    }
}

impl Source for MakeSource {
    ghost left = { λ s. Some s.left };

    ghost faults = { λ _. 0 };

    ghost last = { λ s. s.last };

    ghost stands_on = { λ _. nothing };

    /// Fills `buf` as far as the bytes that are left go.
    fn read(&mut self, buf: &mut [u8]) -> Result<usize, Failed>
        requires { 0 < length buf.old }
        ensures bound { ReadsAtMost result buf.new }
        ensures bytes { ReadConsumes (Some self.old.left) (Some self.new.left) result buf.new }
        ensures last { LastRead self.old.last self.new.last result }
        ensures cause { HasCause 0 0 result }
        ensures answer { result ≡ Ok (min (length buf.old) (length self.old.left)) }
        ensures source { self.new.left ≡ drop (length buf.old) self.old.left }
    {
        let mut at = 0;
        'fill: while at < buf.len() {
            let n = self.give(&mut buf[at..]);
            if n == 0 {
                self.last = at;
                return Ok(at);
            }
            at += n;
        }
        self.last = at;
        Ok(at)
    }
}

// A line that is given in pieces.
ghost use Rattle.std.specs.Prelude.{◌≡◌, ◌≢◌, ◌<◌, ◌==◌, [], ◌++◌, min, length, take};
ghost use Rattle.sk_make.specs.Made.{line_of, made_end};

use sk_lines::put_decimal;
use std::marker::Model;

// The greatest number has fifteen digits.
const LINE_LEN: usize = 16;

/// The line of a number. Contracts see what is left of it.
#[derive(Drop)]
pub struct Line {
    bytes: [u8; LINE_LEN],
    at: usize,
    end: usize,
}

impl Model for Line {
    ghost use Rattle.std.specs.Prelude.{ℕ, List, ◌≤◌, slice_range};

    ghost Value = { List ℕ };

    ghost view = { λ l. slice_range l.bytes l.at l.end };

    ghost invariant = { λ l. (l.at ≤ l.end) × (l.end ≤ 16) };
}

impl Line {
    /// Nothing is left.
    pub fn new() -> Self
        ensures { result ≡ [] }
    {
        Line {
            bytes: [0; LINE_LEN],
            at: 0,
            end: 0,
        }
    }

    /// Whether nothing is left.
    pub fn is_empty(&self) -> bool
        ensures { result ≡ (length self.now == 0) }
    {
        self.at == self.end
    }

    /// Takes the line of a number in place of what was left.
    pub fn set(&mut self, number: u64)
        requires { number < made_end }
        ensures line { self.new ≡ line_of number }
        ensures some { self.new ≢ [] }
    {
        let digits = put_decimal(&mut self.bytes, number);
        self.bytes[digits] = b'\n';
        self.at = 0;
        self.end = digits + 1;
    }

    /// Moves as many bytes to the start of `buf` as are left and fit.
    pub fn give(&mut self, buf: &mut [u8]) -> usize
        ensures count { result ≡ min (length buf.old) (length self.old) }
        ensures bytes { self.old ≡ take result buf.new ++ self.new }
    {
        let left = &self.bytes[self.at..self.end];
        let n = buf.len().min(left.len());
        buf[..n].copy_from_slice(&left[..n]);
        self.at += n;
        n
    }
}

//! A few numbers that stand in a row, without memory of their own.
ghost use Rattle.std.specs.Prelude.{◌≡◌, ◌<◌, ◌≤◌, ◌++◌, ◌∷◌, [], length};
ghost use Rattle.sk_report.specs.Limits.{most_numbers};

use std::marker::Model;

const MOST_NUMBERS: usize = 64;

/// At most 64 numbers, in order.
#[derive(Clone, Copy, Debug, PartialEq, Eq)]
pub struct Numbers {
    // after the first `len` all are 0
    numbers: [u64; MOST_NUMBERS],
    len: usize,
}

impl Model for Numbers {
    ghost use Rattle.std.specs.Prelude.{ℕ, List, length, take};
    ghost use Rattle.std.proofs.Common.{sym};
    ghost use Rattle.sk_report.specs.Rows.{row_of, IsRow};

    ghost Value = { List ℕ };

    ghost view = { λ n. take n.len n.numbers };

    ghost invariant = { λ n. IsRow n.numbers n.len };

    ghost inverse = { λ list. record { numbers = row_of list; len = length list } };

    ghost inverse_ok = { λ n is i. record { numbers = sym is.rest i; len = is.count i } };
}

impl Numbers {
    /// No numbers.
    pub fn new() -> Numbers
        ensures { result ≡ [] }
    {
        Numbers {
            numbers: [0; MOST_NUMBERS],
            len: 0,
        }
    }

    /// Puts a number after the others.
    pub fn push(&mut self, number: u64)
        requires { length self.old < most_numbers }
        ensures { self.new ≡ self.old ++ number ∷ [] }
    {
        self.numbers[self.len] = number;
        self.len += 1;
    }

    /// The numbers, in order.
    pub fn as_slice(&self) -> &[u64]
        ensures value { result.now ≡ self.now }
        ensures few { length result.now ≤ most_numbers }
    {
        &self.numbers[..self.len]
    }
}

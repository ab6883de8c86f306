// A line that is held.
ghost use Rattle.std.specs.Prelude.{◌≡◌, ◌+◌, ◌≤◌, [], ◌++◌, IfOk, length, take};
ghost use Rattle.sk_decimal.specs.Line.{line_room};

use sk_model::OutOfMemory;
use std::alloc::Global;
use std::marker::Model;

/// The most bytes of a line that is held, with its LF.
pub const LONGEST_LINE: usize = 65_600;

// A line with a decimal number in place of its last word may be longer.
const LINE_ROOM: usize = LONGEST_LINE + 64;

/// The memory for one line. Contracts see the bytes that it holds.
#[derive(Drop)]
pub struct Line {
    bytes: Vec<u8>,
}

impl Model for Line {
    ghost use Rattle.std.specs.Prelude.{ℕ, List, ◌≤◌, vec_capacity, vec_len};
    ghost use Rattle.sk_decimal.specs.Line.{line_room};

    ghost Value = { List ℕ };

    ghost view = { λ l. l.bytes.items };

    ghost invariant = { λ l. (line_room ≤ vec_capacity l.bytes) × (vec_len l.bytes ≤ line_room) };
}

impl Line {
    /// Takes all the memory that it will need.
    pub fn new(alloc: Global) -> Result<Line, OutOfMemory>
        ensures { IfOk result (λ line. line ≡ []) }
    {
        Ok(Line {
            bytes: Vec::with_capacity(alloc, LINE_ROOM)?,
        })
    }

    /// How many bytes it holds.
    pub fn len(&self) -> usize
        ensures count { result ≡ length self.now }
        ensures most { result ≤ line_room }
    {
        self.bytes.len()
    }

    /// The bytes that it holds.
    pub fn bytes(&self) -> &[u8]
        ensures { result.now ≡ self.now }
    {
        &self.bytes
    }

    /// Takes these bytes more.
    pub fn push(&mut self, more: &[u8])
        requires { length self.old + length more.now ≤ line_room }
        ensures { self.new ≡ self.old ++ more.now }
    {
        self.bytes.extend_from_slice(more).unwrap();
    }

    /// Keeps only the first bytes.
    pub fn cut(&mut self, len: usize)
        ensures { self.new ≡ take len self.old }
    {
        self.bytes.truncate(len);
    }
}

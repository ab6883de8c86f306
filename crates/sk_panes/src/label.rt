// The label of a line, kept to be compared with the next one's.
ghost use Rattle.std.specs.Prelude.{◌≡◌, ◌+◌, ◌<◌, ◌≤◌, [], length, take, drop, slice_index, IfSome};

use std::marker::Model;

// A moment has at most this many digits.
const MOST: usize = 15;

// At most 15 bytes.
#[derive(Drop)]
pub(crate) struct Label {
    bytes: [u8; MOST],
    len: usize,
}

impl Model for Label {
    ghost use Rattle.std.specs.Prelude.{◌≤◌, ℕ, List, take};

    ghost Value = { List ℕ };

    ghost view = { λ l. take l.len l.bytes };

    ghost invariant = { λ l. l.len ≤ 15 };
}

impl Label {
    // No byte.
    pub(crate) fn new() -> Label
        ensures { result ≡ [] }
    {
        Label {
            bytes: [0; MOST],
            len: 0,
        }
    }

    // What comes after it and a space in a line that begins with both, if it has a byte and something comes.
    #[inline(always)]
    pub(crate) fn rest_of<'a>(&self, line: &'a [u8]) -> Option<&'a [u8]>
        ensures label { IfSome result (λ _. take (length self.now) line.now ≡ self.now) }
        ensures space { IfSome result (λ _. slice_index line.now (length self.now) ≡ 32) }
        ensures rest { IfSome result (λ rest. rest.now ≡ drop (length self.now + 1) line.now) }
        ensures some { IfSome result (λ rest. (0 < length self.now) × (0 < length rest.now)) }
    {
        if self.len == 0 || line.len() <= self.len + 1 || line[self.len] != b' ' {
            return None;
        }
        if line[..self.len] != self.bytes[..self.len] {
            return None;
        }
        Some(&line[self.len + 1..])
    }

    // Keeps this one.
    pub(crate) fn keep(&mut self, label: &[u8])
        requires { length label.now ≤ 15 }
        ensures { self.new ≡ label.now }
    {
        self.bytes[..label.len()].copy_from_slice(label);
        self.len = label.len();
    }
}

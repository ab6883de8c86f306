// The bytes of which a source in memory has given a prefix.
ghost use Rattle.std.specs.Prelude.{◌≡◌, ◌<◌, [], ◌++◌, min, length, take, drop};

use std::marker::Model;

/// Bytes that are given from the first on. Contracts see those that are left.
#[derive(Drop)]
pub struct Rest {
    bytes: Vec<u8>,
    at: usize,
}

impl Model for Rest {
    ghost use Rattle.std.specs.Prelude.{ℕ, List, ◌≤◌, drop, vec_len};

    ghost Value = { List ℕ };

    ghost view = { λ r. drop r.at r.bytes.items };

    ghost invariant = { λ r. r.at ≤ vec_len r.bytes };
}

impl Rest {
    pub fn new(bytes: Vec<u8>) -> Self
        ensures { result ≡ bytes.items }
    {
        Rest { bytes, at: 0 }
    }

    /// Moves as many bytes to the start of `buf` as there are, fit and are wanted.
    pub fn give(&mut self, buf: &mut [u8], most: usize) -> usize
        ensures count { result ≡ min (min (length buf.old) most) (length self.old) }
        ensures bytes { self.old ≡ take result buf.new ++ self.new }
        ensures rest { self.new ≡ drop result self.old }
        ensures end { result ≡ 0 → 0 < length buf.old → 0 < most → self.new ≡ [] }
    {
        let (_, left) = self.bytes.split_at(self.at);
        let n = give(left, buf, most);
        self.at += n;
        n
    }
}

/// Copies bytes from the start of `from` to the start of `buf`: as many as there are, fit and are
/// wanted.
pub fn give(from: &[u8], buf: &mut [u8], most: usize) -> usize
    ensures count { result ≡ min (min (length buf.old) most) (length from.now) }
    ensures bytes { from.now ≡ take result buf.new ++ drop result from.now }
    ensures end { result ≡ 0 → 0 < length buf.old → 0 < most → from.now ≡ [] }
{
    let n = buf.len().min(most).min(from.len());
    let (front, _) = from.split_at(n);
    buf[..n].copy_from_slice(front);
    n
}

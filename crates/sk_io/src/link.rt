// Connections, a connection as a source, and bytes that are sent whole.
ghost use Rattle.std.specs.Prelude.{◌≡◌, ◌<◌, [], ◌∷◌, ℕ, None, Option, length, OnOk, OnErr, IfOk};
ghost use Rattle.std.specs.Io.{ReadsAtMost, WritesAtMost};
ghost use Rattle.std.specs.Io.KnownBytes.{IsAtEnd};
ghost use Rattle.sk_model.specs.Causes.{HasCause};
ghost use Rattle.sk_io.specs.Base.{Base};
ghost use Rattle.sk_io.specs.Traffic.{Traffic, Exchanges, Receives, Sends, SendsPart, left_of, sides_of};

use crate::stream::{Failed, Source};

/// A connection, over which bytes come and go.
pub trait Link {
    /// What was read of the link, what is left to read and what was written on it, if it shows them.
    ghost traffic: { Self → Option Traffic };

    /// How often a call has failed. The count stops at the largest `u64`, and only such a call moves it.
    ghost faults: { Self → ℕ };

    /// How many of the bytes that were written wait to be sent.
    ghost waiting: { Self → ℕ };

    /// Reads some bytes to the start of `buf`, none only at the end. What waits is sent before the peer
    /// is waited for. A read that fails takes none.
    fn read(&mut self, buf: &mut [u8]) -> Result<usize, Failed>
        requires { 0 < length buf.old }
        ensures bound { ReadsAtMost result buf.new }
        ensures bytes { Receives (traffic self.old) (traffic self.new) result buf.new }
        ensures end { IfOk result (λ n. n ≡ 0 → IsAtEnd (left_of (traffic self.new))) }
        ensures sent { OnOk result (waiting self.new ≡ 0) }
        ensures cause { HasCause (faults self.old) (faults self.new) result };

    /// Writes at least one byte from the start of `bytes`. A write that fails writes none.
    fn write(&mut self, bytes: &[u8]) -> Result<usize, Failed>
        requires { 0 < length bytes.now }
        ensures bound { WritesAtMost result bytes.now }
        ensures some { IfOk result (λ n. 0 < n) }
        ensures bytes { Sends (traffic self.old) (traffic self.new) result bytes.now }
        ensures cause { HasCause (faults self.old) (faults self.new) result };

    /// Sends what waits, and lets the peer know that nothing comes after it.
    fn finish(&mut self) -> Result<(), Failed>
        ensures sent { OnOk result (waiting self.new ≡ 0) }
        ensures bytes { traffic self.new ≡ traffic self.old }
        ensures cause { HasCause (faults self.old) (faults self.new) result };
}

/// What comes over a link, as a source. It stands on the borrow and on what no read of the link
/// changes.
#[derive(Drop)]
pub struct OnLink<'a, L: Link> {
    pub link: &'a mut L,
    /// How many bytes the last read by this source gave.
    pub last: usize,
}

impl<'a, L: Link> OnLink<'a, L> {
    /// The source of what `link` has left.
    pub fn new(link: &'a mut L) -> Self
        ensures link { result.link.ghost_name ≡ link.entry.ghost_name }
        ensures link_now { result.link.now ≡ link.old }
        ensures last { result.last ≡ 0 }
    {
        OnLink { link, last: 0 }
    }
}

impl<L: Link> Source for OnLink<'_, L> {
    ghost left = { λ s. left_of (L.traffic s.link.now) };

    ghost faults = { λ s. L.faults s.link.now };

    ghost last = { λ s. s.last };

    ghost stands_on = { λ s. record {
      borrows = s.link.ghost_name ∷ [];
      counts = [];
      files = None;
      opened = None;
      sides = sides_of (L.traffic s.link.now);
    } };

    fn read(&mut self, buf: &mut [u8]) -> Result<usize, Failed> {
        self.last = self.link.read(buf)?;
        Ok(self.last)
    }
}

/// Writes all of `bytes` on a link. If it fails, a proper prefix of them was written.
pub fn send_all<L: Link>(link: &mut L, bytes: &[u8]) -> Result<(), Failed>
    ensures ok { OnOk result (Exchanges (L.traffic link.old) (L.traffic link.new) [] bytes.now) }
    ensures err { OnErr result (SendsPart (L.traffic link.old) (L.traffic link.new) bytes.now) }
    ensures cause { HasCause (L.faults link.old) (L.faults link.new) result }
{
    let mut at = 0;
    'send: while at < bytes.len() {
        at += link.write(&bytes[at..])?;
    }
    Ok(())
}

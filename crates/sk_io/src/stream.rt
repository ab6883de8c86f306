// The traits of streams, and their errors.
ghost use Rattle.std.specs.Prelude.{◌≡◌, ◌<◌, ℕ, List, Option, length, OnOk, OnErr, IfOk};
ghost use Rattle.std.specs.Io.{ReadsAtMost, WritesAtMost};
ghost use Rattle.std.specs.Io.KnownBytes.{Appends, ReadConsumes, WriteAppends};
ghost use Rattle.sk_model.specs.Causes.{HasCause, AppendsPart};
ghost use Rattle.sk_io.specs.Base.{Base, LastRead};

/// A call on a stream failed, and raised its count of faults.
#[derive(Clone, Copy, Debug, PartialEq, Eq)]
pub struct Failed;

/// Where bytes come from.
pub trait Source {
    /// The bytes that reads will give from here on, if the source reports them.
    ghost left: { Self → Option (List ℕ) };

    /// How often a read has failed. The count stops at the largest `u64`, and only a read that fails moves it.
    ghost faults: { Self → ℕ };

    /// How many bytes the last read gave that did not fail, 0 before the first.
    ghost last: { Self → ℕ };

    /// What no read changes.
    ghost stands_on: { Self → Base };

    /// Reads some bytes into the start of `buf`, none only at the end. A read that fails takes none.
    fn read(&mut self, buf: &mut [u8]) -> Result<usize, Failed>
        requires { 0 < length buf.old }
        ensures bound { ReadsAtMost result buf.new }
        ensures bytes { ReadConsumes (left self.old) (left self.new) result buf.new }
        ensures last { LastRead (last self.old) (last self.new) result }
        ensures cause { HasCause (faults self.old) (faults self.new) result }
        ensures stays { stands_on self.new ≡ stands_on self.old };
}

/// Where bytes go.
pub trait Sink {
    /// The bytes that were written, if the sink reports them.
    ghost written: { Self → Option (List ℕ) };

    /// How often a write has failed. The count stops at the largest `u64`, and only a write that fails moves it.
    ghost faults: { Self → ℕ };

    /// Writes at least one byte from the start of `bytes`. A write that fails writes none.
    fn write(&mut self, bytes: &[u8]) -> Result<usize, Failed>
        requires { 0 < length bytes.now }
        ensures bound { WritesAtMost result bytes.now }
        ensures some { IfOk result (λ n. 0 < n) }
        ensures bytes { WriteAppends (written self.old) (written self.new) result bytes.now }
        ensures cause { HasCause (faults self.old) (faults self.new) result };
}

/// Writes all of `bytes`. If it fails, a prefix of them was written, and not all.
pub fn write_all<O: Sink>(out: &mut O, bytes: &[u8]) -> Result<(), Failed>
    ensures ok { OnOk result (Appends (O.written out.old) (O.written out.new) bytes.now) }
    ensures err { OnErr result (AppendsPart (O.written out.old) (O.written out.new) bytes.now) }
    ensures cause { HasCause (O.faults out.old) (O.faults out.new) result }
{
    let mut at = 0;
    'write: while at < bytes.len() {
        at += out.write(&bytes[at..])?;
    }
    Ok(())
}

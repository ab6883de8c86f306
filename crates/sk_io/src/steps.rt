//! Calls of std's streams, taken up again where a signal interrupts them, and the count of faults.
ghost use Rattle.std.specs.Prelude.{◌<◌, IfOk, length};
ghost use Rattle.std.specs.Io.{ReadsAtMost, WritesAtMost};
ghost use Rattle.std.specs.Io.KnownBytes.{Keeps, ReadConsumes, WriteAppends};
ghost use Rattle.sk_model.specs.Causes.{Rose};

use crate::stream::Failed;
use std::io::{ErrorKind, Read, Write};

/// Reads some bytes into the start of `buf`, none only at the end.
pub fn read_some<S: Read>(stream: &mut S, buf: &mut [u8]) -> Result<usize, Failed>
    requires { 0 < length buf.old }
    ensures bound { ReadsAtMost result buf.new }
    ensures bytes { ReadConsumes (S.remaining stream.old) (S.remaining stream.new) result buf.new }
{
    'again: for _ in 0..u64::MAX {
        match stream.read(buf) {
            Ok(n) => return Ok(n),
            Err(e) if e.kind() == ErrorKind::Interrupted => {}
            Err(_) => return Err(Failed),
        }
    }
    Err(Failed)
}

/// Writes at least one byte from the start of `bytes`. A writer that takes none has failed.
pub fn write_some<S: Write>(stream: &mut S, bytes: &[u8]) -> Result<usize, Failed>
    requires { 0 < length bytes.now }
    ensures bound { WritesAtMost result bytes.now }
    ensures some { IfOk result (λ n. 0 < n) }
    ensures bytes { WriteAppends (S.contents stream.old) (S.contents stream.new) result bytes.now }
{
    'again: for _ in 0..u64::MAX {
        match stream.write(bytes) {
            Ok(0) => return Err(Failed),
            Ok(n) => return Ok(n),
            Err(e) if e.kind() == ErrorKind::Interrupted => {}
            Err(_) => return Err(Failed),
        }
    }
    Err(Failed)
}

// Hands on what a writer holds back.
pub(crate) fn flush_some<W: Write>(stream: &mut W) -> Result<(), Failed>
    ensures bytes { Keeps (W.contents stream.old) (W.contents stream.new) }
{
    'again: for _ in 0..u64::MAX {
        match stream.flush() {
            Ok(()) => return Ok(()),
            Err(e) if e.kind() == ErrorKind::Interrupted => {}
            Err(_) => return Err(Failed),
        }
    }
    Err(Failed)
}

/// Counts a fault. The count stops at the largest `u64`.
pub fn count_fault(faults: &mut u64) -> Failed
    ensures { Rose faults.old faults.new }
{
    *faults = faults.saturating_add(1);
    Failed
}

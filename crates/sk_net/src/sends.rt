// One send to a peer that may be slow to read.
ghost use Rattle.std.specs.Prelude.{◌<◌, IfOk, length};
ghost use Rattle.std.specs.Io.{WritesAtMost};
ghost use Rattle.std.specs.Io.KnownBytes.{WriteAppends};

use sk_io::Failed;
use std::io::{ErrorKind, Write};

// How many times in succession a send may wait in vain.
const MOST_WAITS: u32 = 6;

/// Writes at least one byte from the start of `bytes`. A writer whose time limit passes gets them again: the
/// system wakes a send only when much of its buffer is free, so a slow reader needs several waits.
pub fn send_some<W: Write>(out: &mut W, bytes: &[u8]) -> Result<usize, Failed>
    requires { 0 < length bytes.now }
    ensures bound { WritesAtMost result bytes.now }
    ensures some { IfOk result (λ n. 0 < n) }
    ensures bytes { WriteAppends (W.contents out.old) (W.contents out.new) result bytes.now }
{
    let mut waits = 1;
    'again: for _ in 0..u64::MAX {
        match out.write(bytes) {
            Ok(0) => return Err(Failed),
            Ok(n) => return Ok(n),
            Err(e) if e.kind() == ErrorKind::Interrupted => {}
            Err(e) if e.kind() == ErrorKind::WouldBlock && waits < MOST_WAITS => waits += 1,
            Err(_) => return Err(Failed),
        }
    }
    Err(Failed)
}

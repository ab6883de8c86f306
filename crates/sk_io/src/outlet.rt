// What takes the bytes of a sink, and hands them on.
ghost use Rattle.std.specs.Prelude.{◌<◌, IfOk, OnOk, length, None, Option, List, ℕ};
ghost use Rattle.std.specs.Io.{WritesAtMost};
ghost use Rattle.std.specs.Io.KnownBytes.{IsAtEnd, Keeps, WriteAppends};

use crate::steps::{flush_some, write_some};
use crate::stream::Failed;
use std::io::Write;

/// Takes bytes, may hold some back, and hands all of them on when asked to. A writer of std is one, of which a
/// flush hands on; std does not say what it holds back.
pub trait Outlet {
    /// The bytes that it was given, if they are known.
    ghost contents: { Self → Option (List ℕ) };

    /// Those of them that it holds back, if they are known.
    ghost held: { Self → Option (List ℕ) };

    /// Takes at least one byte from the start of `bytes`.
    fn take_some(&mut self, bytes: &[u8]) -> Result<usize, Failed>
        requires { 0 < length bytes.now }
        ensures bound { WritesAtMost result bytes.now }
        ensures some { IfOk result (λ n. 0 < n) }
        ensures bytes { WriteAppends (contents self.old) (contents self.new) result bytes.now };

    /// Hands on all that it holds back.
    fn hand_on(&mut self) -> Result<(), Failed>
        ensures bytes { Keeps (contents self.old) (contents self.new) }
        ensures all { OnOk result (IsAtEnd (held self.new)) };
}

impl<W: Write> Outlet for W {
    ghost contents = { λ w. W.contents w };

    ghost held = { λ _. None };

    fn take_some(&mut self, bytes: &[u8]) -> Result<usize, Failed> {
        write_some(self, bytes)
    }

    fn hand_on(&mut self) -> Result<(), Failed> {
        flush_some(self)
    }
}

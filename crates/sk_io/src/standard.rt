ghost use Rattle.std.specs.Prelude.{◌≡◌, ◌<◌, None, IfOk, OnOk, length, take};
ghost use Rattle.std.specs.Io.{WritesAtMost};
ghost use Rattle.std.specs.Io.KnownBytes.{Appends, IsAtEnd, WriteAppends};
ghost use Rattle.sk_model.specs.Causes.{HasCause};
ghost use Rattle.sk_io.specs.Base.{nothing};
ghost use Rattle.sk_io.specs.Standard.{writer_of};

use crate::outlet::Outlet;
use crate::steps::{count_fault, read_some};
use crate::stream::{Failed, Sink, Source};
use std::io::Read;

/// A reader of std as a source, which counts the reader's errors.
#[derive(Drop)]
pub struct StdSource<R> {
    inner: R,
    // how many bytes the last read gave
    last: usize,
    faults: u64,
}

impl<R: Read> StdSource<R> {
    /// A source of what `inner` gives.
    pub fn new(inner: R) -> Self
        ensures left { ⟦<StdSource<R> as Source>⟧.left result ≡ R.remaining inner }
        ensures last { ⟦<StdSource<R> as Source>⟧.last result ≡ 0 }
        ensures faults { ⟦<StdSource<R> as Source>⟧.faults result ≡ 0 }
    {
        StdSource {
            inner,
            last: 0,
            faults: 0,
        }
    }
}

impl<R: Read> Source for StdSource<R> {
    ghost left = { λ s. R.remaining s.inner };

    ghost faults = { λ s. s.faults };

    ghost last = { λ s. s.last };

    ghost stands_on = { λ _. nothing };

    fn read(&mut self, buf: &mut [u8]) -> Result<usize, Failed> {
        match read_some(&mut self.inner, buf) {
            Ok(n) => {
                self.last = n;
                Ok(n)
            }
            Err(_) => Err(count_fault(&mut self.faults)),
        }
    }
}

/// An outlet as a sink, as a writer of std is one: it hands on each write, and counts the errors. A write
/// that takes no byte is an error too. What a flush that fails has done to the bytes is unknown,
/// so the sink reports none.
#[derive(Drop)]
pub struct StdSink<W> {
    inner: W,
    faults: u64,
}

impl<W: Outlet> StdSink<W> {
    /// A sink that hands all to `inner`.
    pub fn new(inner: W) -> Self
        ensures writer { writer_of result ≡ inner }
        ensures faults { ⟦<StdSink<W> as Sink>⟧.faults result ≡ 0 }
    {
        StdSink { inner, faults: 0 }
    }
}

impl<W: Outlet> Sink for StdSink<W> {
    ghost written = { λ _. None };

    ghost faults = { λ s. s.faults };

    fn write(&mut self, bytes: &[u8]) -> Result<usize, Failed>
        requires { 0 < length bytes.now }
        ensures bound { WritesAtMost result bytes.now }
        ensures some { IfOk result (λ n. 0 < n) }
        ensures bytes { WriteAppends None None result bytes.now }
        ensures cause { let faults = ⟦<StdSink<W> as Sink>⟧.faults in
            HasCause (faults self.old) (faults self.new) result }
        ensures writer { IfOk result (λ n.
            Appends (W.contents (writer_of self.old)) (W.contents (writer_of self.new)) (take n bytes.now)) }
        ensures through { OnOk result (IsAtEnd (W.held (writer_of self.new))) }
    {
        match write_through(&mut self.inner, bytes) {
            Ok(n) => Ok(n),
            Err(_) => Err(count_fault(&mut self.faults)),
        }
    }
}

// Writes at least one byte from the start of `bytes`, and hands on all that is held back.
fn write_through<W: Outlet>(out: &mut W, bytes: &[u8]) -> Result<usize, Failed>
    requires { 0 < length bytes.now }
    ensures bound { WritesAtMost result bytes.now }
    ensures some { IfOk result (λ n. 0 < n) }
    ensures bytes { IfOk result (λ n. Appends (W.contents out.old) (W.contents out.new) (take n bytes.now)) }
    ensures through { OnOk result (IsAtEnd (W.held out.new)) }
{
    let n = out.take_some(bytes)?;
    out.hand_on()?;
    Ok(n)
}

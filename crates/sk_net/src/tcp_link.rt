// A connection over TCP.
ghost use Rattle.std.specs.Prelude.{◌≡◌, ◌<◌, [], None, IfOk, OnOk, length};
ghost use Rattle.std.specs.Io.{ReadsAtMost, WritesAtMost};
ghost use Rattle.std.specs.Io.KnownBytes.{IsAtEnd, Keeps, WriteAppends, append_known};
ghost use Rattle.sk_model.specs.Causes.{HasCause};
ghost use Rattle.sk_io.specs.Traffic.{Receives, Sends, left_of};
ghost use Rattle.sk_net.specs.Links.{ReadsNext, stream_of, waiting_of};

use crate::replies::Replies;
use sk_io::{Failed, Link, count_fault, read_some};
use std::io::{Read, Write};
use std::net::{OpenStream, Shutdown, TcpStream};
use std::time::Duration;

// How long one wait lasts at the close of a link, in milliseconds. As often as a send may wait it is two seconds.
const CLOSE_WAIT: u64 = 333;

/// A connection over a stream. What is written waits until the next read, or until much waits, and is
/// sent then: a fault of sending is one of that call. After the end of what comes it is sent immediately, and
/// after `finish` nothing can be sent. The close of a link on which a call has failed sends nothing.
#[derive(Drop)]
pub struct TcpLink<S = TcpStream> {
    stream: S,
    replies: Replies,
    faults: u64,
}

impl<S: Read + Write + OpenStream> TcpLink<S> {
    // A link over this stream, with this room for what is written.
    pub(crate) fn new(stream: S, replies: Replies) -> Self
        ensures faults { ⟦<TcpLink<S> as Link>⟧.faults result ≡ 0 }
        ensures waiting { waiting_of result ≡ replies.bytes }
    {
        TcpLink {
            stream,
            replies,
            faults: 0,
        }
    }

    // Sends what waits.
    fn send(&mut self) -> Result<(), Failed>
        ensures sent { OnOk result (length (waiting_of self.new) ≡ 0) }
        ensures bytes { Keeps (append_known (S.contents (stream_of self.old)) (waiting_of self.old))
            (append_known (S.contents (stream_of self.new)) (waiting_of self.new)) }
        ensures none { waiting_of self.old ≡ [] → stream_of self.new ≡ stream_of self.old }
        ensures cause { let faults = ⟦<TcpLink<S> as Link>⟧.faults in HasCause (faults self.old) (faults self.new) result }
    {
        let Ok(()) = self.replies.send(&mut self.stream) else {
            return Err(count_fault(&mut self.faults));
        };
        Ok(())
    }

    // How often a call has failed.
    pub(crate) fn faults(&self) -> u64
        ensures { result ≡ ⟦<TcpLink<S> as Link>⟧.faults self.now }
    {
        self.faults
    }

    // How many bytes wait to be sent.
    pub(crate) fn waiting(&self) -> usize
        ensures { result ≡ ⟦<TcpLink<S> as Link>⟧.waiting self.now }
    {
        self.replies.len()
    }
}

impl<S: Read + Write + OpenStream> TcpLink<S> {
    // Sends what waits, for the last time, and waits little for a peer that does not read. A broken link gives
    // nothing more to the system: its peer has had its time.
    pub(crate) fn send_last(&mut self)
        ensures faults { let faults = ⟦<TcpLink<S> as Link>⟧.faults in faults self.new ≡ faults self.old }
        ensures broken { 0 < ⟦<TcpLink<S> as Link>⟧.faults self.old → self.new ≡ self.old }
    {
        if self.faults > 0 {
            return;
        }
        let wait = Duration::from_millis(CLOSE_WAIT);
        if self.stream.set_write_timeout(Some(wait)).is_ok() {
            let _ = self.replies.send(&mut self.stream);
        }
    }
}

impl<S: Read + Write + OpenStream> Link for TcpLink<S> {
    ghost traffic = { λ _. None };

    ghost faults = { λ l. l.faults };

    ghost waiting = { λ l. length (waiting_of l) };

    fn read(&mut self, buf: &mut [u8]) -> Result<usize, Failed>
        requires { 0 < length buf.old }
        ensures bound { ReadsAtMost result buf.new }
        ensures bytes { Receives None None result buf.new }
        ensures end { IfOk result (λ n. n ≡ 0 → IsAtEnd (left_of None)) }
        ensures cause { let faults = ⟦<TcpLink<S> as Link>⟧.faults in HasCause (faults self.old) (faults self.new) result }
        ensures sent { OnOk result (length (waiting_of self.new) ≡ 0) }
        ensures next { ReadsNext S.contents S.remaining self.old self.new result buf.new }
        ensures ended { IfOk result (λ n. n ≡ 0 → IsAtEnd (S.remaining (stream_of self.new))) }
    {
        self.send()?;
        let Ok(n) = read_some(&mut self.stream, buf) else {
            return Err(count_fault(&mut self.faults));
        };
        if n == 0 {
            self.replies.end();
        }
        Ok(n)
    }

    fn write(&mut self, bytes: &[u8]) -> Result<usize, Failed>
        requires { 0 < length bytes.now }
        ensures bound { WritesAtMost result bytes.now }
        ensures some { IfOk result (λ n. 0 < n) }
        ensures bytes { Sends None None result bytes.now }
        ensures cause { let faults = ⟦<TcpLink<S> as Link>⟧.faults in HasCause (faults self.old) (faults self.new) result }
        ensures waits { WriteAppends (append_known (S.contents (stream_of self.old)) (waiting_of self.old))
            (append_known (S.contents (stream_of self.new)) (waiting_of self.new)) result bytes.now }
    {
        match self.replies.write(&mut self.stream, bytes) {
            Ok(n) => Ok(n),
            Err(_) => Err(count_fault(&mut self.faults)),
        }
    }

    fn finish(&mut self) -> Result<(), Failed>
        ensures sent { OnOk result (length (waiting_of self.new) ≡ 0) }
        ensures cause { let faults = ⟦<TcpLink<S> as Link>⟧.faults in HasCause (faults self.old) (faults self.new) result }
        ensures waits { Keeps (append_known (S.contents (stream_of self.old)) (waiting_of self.old))
            (append_known (S.contents (stream_of self.new)) (waiting_of self.new)) }
    {
        self.send()?;
        // If the peer is gone already, nobody waits for it.
        let _ = self.stream.shutdown(Shutdown::Write);
        Ok(())
    }
}

#[cfg(test)]
mod tests;

// Replies that wait to be sent together.
ghost use Rattle.std.specs.Prelude.{◌≡◌, ◌<◌, ◌≤◌, ◌↔◌, [], ◌++◌, IfOk, OnOk, IsTrue, length, take, drop, min};
ghost use Rattle.std.specs.Io.{WritesAtMost};
ghost use Rattle.std.specs.Io.KnownBytes.{Keeps, WriteAppends, append_known};

use crate::sends::send_some;
use sk_io::Failed;
use std::alloc::{AllocError, Global};
use std::io::Write;
use std::marker::Model;

/// Bytes that wait to be sent, and room for more.
#[derive(Drop)]
pub struct Replies {
    bytes: Vec<u8>,
    sent: usize,
    most: usize,
}

impl Model for Replies {
    ghost use Rattle.std.specs.Prelude.{◌-◌, ◌≤◌, drop, vec_len, vec_capacity};
    ghost use Rattle.sk_net.specs.Waiting.{Waiting};

    ghost Value = { Waiting };

    ghost view = { λ r. record { bytes = drop r.sent r.bytes.items; room = r.most - vec_len r.bytes } };

    ghost invariant = { λ r. (r.sent ≤ vec_len r.bytes) × (r.most ≤ vec_capacity r.bytes) };
}

impl Replies {
    /// No bytes, and room for `room`.
    pub fn new(alloc: Global, room: usize) -> Result<Self, AllocError>
        ensures { IfOk result (λ r. r ≡ record { bytes = []; room = room }) }
    {
        Ok(Replies {
            bytes: Vec::with_capacity(alloc, room)?,
            sent: 0,
            most: room,
        })
    }

    /// No bytes, and no room. It takes no memory.
    pub fn none(alloc: Global) -> Self
        ensures { result ≡ record { bytes = []; room = 0 } }
    {
        Replies {
            bytes: Vec::new(alloc),
            sent: 0,
            most: 0,
        }
    }

    /// From here on no more bytes wait.
    pub fn end(&mut self)
        ensures { self.new ≡ record self.old { room = 0 } }
    {
        self.most = 0;
    }

    /// Writes at least one byte from the start of `bytes`, after those that wait: they wait too if
    /// there is room.
    pub fn write<W: Write>(&mut self, out: &mut W, bytes: &[u8]) -> Result<usize, Failed>
        requires { 0 < length bytes.now }
        ensures bound { WritesAtMost result bytes.now }
        ensures some { IfOk result (λ n. 0 < n) }
        ensures bytes { WriteAppends (append_known (W.contents out.old) self.old.bytes)
            (append_known (W.contents out.new) self.new.bytes) result bytes.now }
    {
        if self.is_full() {
            self.send(out)?;
        }
        if self.is_full() {
            return send_some(out, bytes);
        }
        Ok(self.keep(bytes))
    }

    /// Sends all that waits. If it fails, what was not sent waits on.
    pub fn send<W: Write>(&mut self, out: &mut W) -> Result<(), Failed>
        ensures all { OnOk result (self.new.bytes ≡ []) }
        ensures none { self.old.bytes ≡ [] → out.new ≡ out.old }
        ensures bytes { Keeps (append_known (W.contents out.old) self.old.bytes)
            (append_known (W.contents out.new) self.new.bytes) }
    {
        send_from(out, &self.bytes, &mut self.sent)?;
        self.bytes.clear();
        self.sent = 0;
        Ok(())
    }

    /// How many bytes wait.
    pub fn len(&self) -> usize
        ensures { result ≡ length self.now.bytes }
    {
        self.bytes.len() - self.sent
    }

    // Whether no byte more may wait.
    fn is_full(&self) -> bool
        ensures { IsTrue result ↔ self.now.room ≡ 0 }
    {
        self.bytes.len() >= self.most
    }

    // Keeps as many of these bytes as there is room for, and returns how many.
    fn keep(&mut self, bytes: &[u8]) -> usize
        ensures count { result ≡ min (length bytes.now) self.old.room }
        ensures bytes { self.new.bytes ≡ self.old.bytes ++ take result bytes.now }
    {
        let room = self.most.saturating_sub(self.bytes.len());
        let n = bytes.len().min(room);
        self.bytes.extend_from_slice(&bytes[..n]).unwrap();
        n
    }
}

// Sends the bytes from a place on, and moves it past those that were sent.
fn send_from<W: Write>(out: &mut W, bytes: &[u8], place: &mut usize) -> Result<(), Failed>
    requires { place.old ≤ length bytes.now }
    ensures within { place.new ≤ length bytes.now }
    ensures all { OnOk result (place.new ≡ length bytes.now) }
    ensures none { drop place.old bytes.now ≡ [] → out.new ≡ out.old }
    ensures bytes { Keeps (append_known (W.contents out.old) (drop place.old bytes.now))
        (append_known (W.contents out.new) (drop place.new bytes.now)) }
{
    'send: while *place < bytes.len() {
        *place += send_some(out, &bytes[*place..])?;
    }
    Ok(())
}

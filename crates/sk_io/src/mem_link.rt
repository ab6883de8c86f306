ghost use Rattle.std.specs.Prelude.{◌≡◌, ◌<◌, Some, Ok, IfOk, is_err, length};
ghost use Rattle.std.specs.Io.{ReadsAtMost, WritesAtMost};
ghost use Rattle.std.specs.Io.KnownBytes.{IsAtEnd};
ghost use Rattle.sk_model.specs.Causes.{HasCause};
ghost use Rattle.sk_io.specs.Traffic.{Receives, Sends, left_of};
ghost use Rattle.sk_io.specs.Memory.{new_link, next_fails, next_received, after_link_read, refuses_on, next_sent, after_link_write};

use crate::link::Link;
use crate::plan::Plan;
use crate::rest::give;
use crate::stream::Failed;
use sk_model::OutOfMemory;
use std::alloc::Global;
use std::marker::Model;

/// A link in memory: bytes that come, and room for those that go. It fails at the calls that it is
/// given and when the room is full.
#[derive(Drop)]
pub struct MemLink {
    bytes: Vec<u8>,
    at: usize,
    written: Vec<u8>,
    room: usize,
    piece: usize,
    plan: Plan,
}

impl Model for MemLink {
    ghost use Rattle.std.specs.Prelude.{◌<◌, ◌≤◌, take, drop, vec_len, vec_capacity};
    ghost use Rattle.sk_io.specs.Memory.{LinkState};

    ghost Value = { LinkState };

    ghost view = { λ l. record {
      traffic = record { taken = take l.at l.bytes.items; left = drop l.at l.bytes.items; written = l.written.items };
      room = l.room;
      piece = l.piece;
      calls = l.plan;
    } };

    ghost invariant = { λ l. (l.at ≤ vec_len l.bytes) × (vec_len l.written ≤ l.room)
        × (l.room ≤ vec_capacity l.written) × (0 < l.piece) };
}

impl MemLink {
    /// A link over which `bytes` come, with room for `room` bytes that go. One call moves at most
    /// `piece` of them. Its calls of `read` and `write` with the numbers `fails`, counted together from
    /// 0, fail. All memory is taken here.
    pub fn new(
        alloc: Global,
        bytes: Vec<u8>,
        room: usize,
        piece: usize,
        fails: Vec<u64>,
    ) -> Result<Self, OutOfMemory>
        requires { 0 < piece }
        ensures { IfOk result (λ link. link ≡ new_link bytes.items room piece fails.items) }
    {
        Ok(MemLink {
            bytes,
            at: 0,
            written: Vec::with_capacity(alloc, room)?,
            room,
            piece,
            plan: Plan::new(fails),
        })
    }

    /// The bytes that were written.
    pub fn written(&self) -> &[u8]
        ensures { result.now ≡ self.now.traffic.written }
    {
        &self.written
    }
}

impl Link for MemLink {
    ghost traffic = { λ l. Some l.traffic };

    ghost faults = { λ l. l.calls.faults };

    ghost waiting = { λ _. 0 };

    /// Fails exactly at the calls with the listed numbers.
    fn read(&mut self, buf: &mut [u8]) -> Result<usize, Failed>
        requires { 0 < length buf.old }
        ensures bound { ReadsAtMost result buf.new }
        ensures bytes { Receives (Some self.old.traffic) (Some self.new.traffic) result buf.new }
        ensures end { IfOk result (λ n. n ≡ 0 → IsAtEnd (left_of (Some self.new.traffic))) }
        ensures cause { HasCause self.old.calls.faults self.new.calls.faults result }
        ensures fails { is_err result ≡ next_fails self.old.calls }
        ensures count { IfOk result (λ n. n ≡ next_received self.old (length buf.old)) }
        ensures link { self.new ≡ after_link_read self.old (length buf.old) }
    {
        if self.plan.call() {
            return Err(self.plan.fail());
        }
        let (_, left) = self.bytes.split_at(self.at);
        let n = give(left, buf, self.piece);
        self.at += n;
        Ok(n)
    }

    /// Fails exactly at the calls with the listed numbers and when the room is full.
    fn write(&mut self, bytes: &[u8]) -> Result<usize, Failed>
        requires { 0 < length bytes.now }
        ensures bound { WritesAtMost result bytes.now }
        ensures some { IfOk result (λ n. 0 < n) }
        ensures bytes { Sends (Some self.old.traffic) (Some self.new.traffic) result bytes.now }
        ensures cause { HasCause self.old.calls.faults self.new.calls.faults result }
        ensures fails { is_err result ≡ refuses_on self.old }
        ensures count { IfOk result (λ n. n ≡ next_sent self.old (length bytes.now)) }
        ensures link { self.new ≡ after_link_write self.old bytes.now }
    {
        let fails = self.plan.call();
        let room = self.room - self.written.len();
        if fails || room == 0 {
            return Err(self.plan.fail());
        }
        let n = bytes.len().min(self.piece).min(room);
        self.written.extend_from_slice(&bytes[..n]).unwrap();
        Ok(n)
    }

    /// Never fails, since nothing waits.
    fn finish(&mut self) -> Result<(), Failed>
        ensures ok { result ≡ Ok tt }
        ensures link { self.new ≡ self.old }
    {
        Ok(())
    }
}

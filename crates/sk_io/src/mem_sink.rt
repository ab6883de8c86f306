ghost use Rattle.std.specs.Prelude.{◌≡◌, ◌<◌, [], Some, IfOk, is_err, length};
ghost use Rattle.std.specs.Io.{WritesAtMost};
ghost use Rattle.std.specs.Io.KnownBytes.{WriteAppends};
ghost use Rattle.sk_model.specs.Causes.{HasCause};
ghost use Rattle.sk_io.specs.Memory.{planned, refuses, next_taken, after_write};

use crate::plan::Plan;
use crate::stream::{Failed, Sink};
use sk_model::OutOfMemory;
use std::alloc::Global;
use std::marker::Model;

/// A sink in memory of a fixed size, which fails when it is full and when its plan says so.
#[derive(Drop)]
pub struct MemSink {
    bytes: Vec<u8>,
    room: usize,
    piece: usize,
    plan: Plan,
}

impl Model for MemSink {
    ghost use Rattle.std.specs.Prelude.{◌<◌, ◌≤◌, vec_len, vec_capacity};
    ghost use Rattle.sk_io.specs.Memory.{SinkState};

    ghost Value = { SinkState };

    ghost view = { λ s.
        record { written = s.bytes.items; room = s.room; piece = s.piece; calls = s.plan } };

    ghost invariant = { λ s.
        (vec_len s.bytes ≤ s.room) × (s.room ≤ vec_capacity s.bytes) × (0 < s.piece) };
}

impl MemSink {
    /// A sink for `room` bytes that takes at most `piece` of them a call. Its calls with the
    /// numbers `fails`, counted from 0, fail. All memory is taken here.
    pub fn new(
        alloc: Global,
        room: usize,
        piece: usize,
        fails: Vec<u64>,
    ) -> Result<Self, OutOfMemory>
        requires { 0 < piece }
        ensures { IfOk result (λ sink.
            sink ≡ record {
              written = [];
              room = room;
              piece = piece;
              calls = planned fails.items;
            }) }
    {
        Ok(MemSink {
            bytes: Vec::with_capacity(alloc, room)?,
            room,
            piece,
            plan: Plan::new(fails),
        })
    }

    /// The bytes that were written.
    pub fn written(&self) -> &[u8]
        ensures { result.now ≡ self.now.written }
    {
        &self.bytes
    }
}

impl Sink for MemSink {
    ghost written = { λ s. Some s.written };

    ghost faults = { λ s. s.calls.faults };

    /// Fails exactly at the calls with the listed numbers and where the sink is full.
    fn write(&mut self, bytes: &[u8]) -> Result<usize, Failed>
        requires { 0 < length bytes.now }
        ensures bound { WritesAtMost result bytes.now }
        ensures some { IfOk result (λ n. 0 < n) }
        ensures bytes { WriteAppends (Some self.old.written) (Some self.new.written) result bytes.now }
        ensures cause { HasCause self.old.calls.faults self.new.calls.faults result }
        ensures fails { is_err result ≡ refuses self.old }
        ensures count { IfOk result (λ n. n ≡ next_taken self.old (length bytes.now)) }
        ensures sink { self.new ≡ after_write self.old bytes.now }
    {
        let fails = self.plan.call();
        let room = self.room - self.bytes.len();
        if fails || room == 0 {
            return Err(self.plan.fail());
        }
        let n = bytes.len().min(self.piece).min(room);
        self.bytes.extend_from_slice(&bytes[..n]).unwrap();
        Ok(n)
    }
}

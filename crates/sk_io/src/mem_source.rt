ghost use Rattle.std.specs.Prelude.{◌≡◌, ◌<◌, ◌≤◌, [], ◌++◌, Some, IfOk, is_err, min, length, take, drop, vec_len};
ghost use Rattle.std.specs.Io.{ReadsAtMost};
ghost use Rattle.std.specs.Io.KnownBytes.{ReadConsumes};
ghost use Rattle.sk_model.specs.Causes.{HasCause};
ghost use Rattle.sk_io.specs.Base.{nothing, LastRead};
ghost use Rattle.sk_io.specs.Memory.{planned, next_fails, next_given, after_read};

use crate::plan::Plan;
use crate::rest::Rest;
use crate::stream::{Failed, Source};
use std::marker::Model;

/// A source of bytes in memory, which fails when its plan says so.
#[derive(Drop)]
pub struct MemSource {
    rest: Rest,
    piece: usize,
    // how many bytes the last read gave
    last: usize,
    plan: Plan,
}

impl Model for MemSource {
    ghost use Rattle.std.specs.Prelude.{◌<◌};
    ghost use Rattle.sk_io.specs.Memory.{SourceState};

    ghost Value = { SourceState };

    ghost view = { λ s. record { left = s.rest; piece = s.piece; last = s.last; calls = s.plan } };

    ghost invariant = { λ s. 0 < s.piece };
}

impl MemSource {
    /// A source of `bytes` that gives at most `piece` of them a call. Its calls with the numbers
    /// `fails`, counted from 0, fail.
    pub fn new(bytes: Vec<u8>, piece: usize, fails: Vec<u64>) -> Self
        requires { 0 < piece }
        ensures { result ≡ record { left = bytes.items; piece = piece; last = 0; calls = planned fails.items } }
    {
        MemSource {
            rest: Rest::new(bytes),
            piece,
            last: 0,
            plan: Plan::new(fails),
        }
    }
}

impl Source for MemSource {
    ghost left = { λ s. Some s.left };

    ghost faults = { λ s. s.calls.faults };

    ghost last = { λ s. s.last };

    ghost stands_on = { λ _. nothing };

    /// Fails exactly at the calls with the listed numbers.
    fn read(&mut self, buf: &mut [u8]) -> Result<usize, Failed>
        requires { 0 < length buf.old }
        ensures bound { ReadsAtMost result buf.new }
        ensures bytes { ReadConsumes (Some self.old.left) (Some self.new.left) result buf.new }
        ensures last { LastRead self.old.last self.new.last result }
        ensures cause { HasCause self.old.calls.faults self.new.calls.faults result }
        ensures fails { is_err result ≡ next_fails self.old.calls }
        ensures count { IfOk result (λ n. n ≡ next_given self.old (length buf.old)) }
        ensures source { self.new ≡ after_read self.old (length buf.old) }
    {
        if self.plan.call() {
            return Err(self.plan.fail());
        }
        self.last = self.rest.give(buf, self.piece);
        Ok(self.last)
    }
}

ghost use Rattle.std.specs.Prelude.{◌≡◌, ◌≢◌, ◌-◌, ◌<◌, [], ◌∷◌, ◌++◌, All, Err, None, Some, IsSome, IfOk, IfSome, OnOk, OnErr, is_err, length, slice_get};
ghost use Rattle.sk_model.specs.Causes.{HasCause, HasCauseIn};
ghost use Rattle.sk_io.specs.Traffic.{IsUntouched, Arrive, text_of};
ghost use Rattle.sk_io.specs.Memory.{planned, IsNew, next_fails, called, failed, cannot_accept, after_accept, doorway_of};

use crate::door::{Door, DoorFault};
use crate::mem_link::MemLink;
use crate::plan::Plan;
use crate::stream::Failed;
use std::marker::Model;

/// A door in memory, which gives the links that it has, in order. It fails at the calls that it is given
/// and when no link is left.
#[derive(Drop)]
pub struct MemDoor {
    waiting: Vec<MemLink>,
    closed: Vec<MemLink>,
    accepted: u64,
    room: u32,
    port: Option<u16>,
    plan: Plan,
}

impl Model for MemDoor {
    ghost use Rattle.std.specs.Prelude.{◌+◌, ◌≤◌, All, vec_len, vec_capacity};
    ghost use Rattle.sk_io.specs.Memory.{DoorState, IsNew};

    ghost Value = { DoorState };

    ghost view = { λ d. record {
      waiting = d.waiting.items;
      closed = d.closed.items;
      accepted = d.accepted;
      room = d.room;
      port = d.port;
      calls = d.plan;
    } };

    ghost invariant = { λ d. All IsNew d.waiting.items × (vec_len d.closed + d.room ≤ vec_capacity d.closed) };
}

impl MemDoor {
    /// A door that gives these links, none of which was read or written. Its calls of `listen` and
    /// `accept` with the numbers `fails`, counted together from 0, fail.
    pub fn new(links: Vec<MemLink>, fails: Vec<u64>) -> Self
        requires { All IsNew links.items }
        ensures { result ≡ record {
          waiting = links.items;
          closed = [];
          accepted = 0;
          room = 0;
          port = None;
          calls = planned fails.items;
        } }
    {
        MemDoor {
            closed: Vec::new(*links.allocator()),
            waiting: links,
            accepted: 0,
            room: 0,
            port: None,
            plan: Plan::new(fails),
        }
    }

    /// The port that it listens at.
    pub fn port(&self) -> Option<u16>
        ensures { result ≡ self.now.port }
    {
        self.port
    }

    /// The bytes that were written on the link that was closed as number `i`, counted from 0.
    pub fn written(&self, i: u32) -> &[u8]
        requires { i < length self.now.closed }
        ensures { IfSome (slice_get self.now.closed i) (λ link. result.now ≡ link.traffic.written) }
    {
        self.closed[i as usize].written()
    }
}

impl Door for MemDoor {
    type Link = MemLink;

    ghost faults = { λ d. d.calls.faults };

    ghost accepted = { λ d. d.accepted };

    ghost doorway = { λ d. doorway_of d };

    ghost room = { λ d. d.room };

    /// Fails exactly at the calls with the listed numbers, if there is memory. Any port is free.
    fn listen(&mut self, port: u16, links: u32) -> Result<(), DoorFault>
        ensures ok { OnOk result (self.new ≡ record self.old { room = links; port = Some port; calls = called self.old.calls }) }
        ensures failed { result ≡ Err DoorFault.Failed → self.new ≡ record self.old { calls = failed (called self.old.calls) } }
        ensures unchanged { result ≡ Err DoorFault.OutOfMemory → self.new ≡ self.old }
        ensures fails { result ≢ Err DoorFault.OutOfMemory → is_err result ≡ next_fails self.old.calls }
    {
        self.closed.reserve(links as usize)?;
        if self.plan.call() {
            return Err(self.plan.fail().into());
        }
        self.room = links;
        self.port = Some(port);
        Ok(())
    }

    /// Fails exactly at the calls with the listed numbers and when no link is left.
    fn accept(&mut self) -> Result<MemLink, Failed>
        requires { IsSome self.old.port }
        ensures untouched { IfOk result (λ link. IfSome (Some link.traffic) IsUntouched) }
        ensures count { IfOk result (λ link. link.calls.faults ≡ 0) }
        ensures cause { HasCause self.old.calls.faults self.new.calls.faults result }
        ensures arrives { IfOk result (λ link. Arrive (doorway_of self.old) (doorway_of self.new) (text_of (Some link.traffic) ∷ [])) }
        ensures none { OnErr result (doorway_of self.new ≡ doorway_of self.old) }
        ensures first { IfOk result (λ link. self.old.waiting ≡ link ∷ self.new.waiting) }
        ensures fails { is_err result ≡ cannot_accept self.old }
        ensures door { self.new ≡ after_accept self.old }
    {
        if self.plan.call() || self.waiting.is_empty() {
            return Err(self.plan.fail());
        }
        self.accepted = self.accepted.saturating_add(1);
        Ok(self.waiting.remove(0))
    }

    fn close(&mut self, link: MemLink)
        requires { 0 < self.old.room }
        ensures { self.new ≡ record self.old { closed = self.old.closed ++ link ∷ []; room = self.old.room - 1 } }
    {
        self.room -= 1;
        self.closed.push_reserved(link);
    }
}

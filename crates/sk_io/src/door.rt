// Where connections are accepted.
ghost use Rattle.std.specs.Prelude.{◌≡◌, ◌+◌, ◌<◌, [], ◌∷◌, ◌++◌, ℕ, Some, IsSome, OnOk, OnErr, IfOk, IfSome};
ghost use Rattle.sk_model.specs.Causes.{HasCause, HasCauseIn, Rose};
ghost use Rattle.sk_io.specs.Traffic.{Arrive, Doorway, IsUntouched, text_of};

use crate::link::Link;
use crate::stream::Failed;
use std::alloc::AllocError;

/// Why a door does not listen.
#[derive(Clone, Copy, Debug, PartialEq, Eq)]
pub enum DoorFault {
    /// The call failed, and raised the count of faults.
    Failed,
    /// No memory was left, and the door is as before.
    OutOfMemory,
}

impl From<Failed> for DoorFault {
    ghost use Rattle.sk_io.specs.declared.door.DoorFault.TheVariants as fault;

    ghost from_gives = { λ _ e. e ≡ fault.Failed };

    fn from(_: Failed) -> Self {
        DoorFault::Failed
    }
}

impl From<AllocError> for DoorFault {
    ghost use Rattle.sk_io.specs.declared.door.DoorFault.TheVariants as fault;

    ghost from_gives = { λ _ e. e ≡ fault.OutOfMemory };

    fn from(_: AllocError) -> Self {
        DoorFault::OutOfMemory
    }
}

/// Where links are accepted, and closed again.
pub trait Door {
    type Link: Link + Drop;

    /// How often a `listen` or an `accept` has failed. The count stops at the largest `u64`, and only
    /// such a call moves it.
    ghost faults: { Self → ℕ };

    /// How many links were accepted. The count stops at the largest `u64`.
    ghost accepted: { Self → ℕ };

    /// The port that the last `listen` which answered `Ok` was given, the links to come, in the order in
    /// which they will be accepted, if the door knows them, and those that were closed, in order.
    ghost doorway: { Self → Doorway };

    /// How many more links may be closed.
    ghost room: { Self → ℕ };

    /// Listens at a port, and takes the room for `links` further records of links that are closed.
    fn listen(&mut self, port: u16, links: u32) -> Result<(), DoorFault>
        ensures listens { OnOk result (doorway self.new ≡ record (doorway self.old) { port = Some port }) }
        ensures room { OnOk result (room self.new ≡ links) }
        ensures err { OnErr result ((doorway self.new ≡ doorway self.old) × (room self.new ≡ room self.old)) }
        ensures cause { HasCauseIn DoorFault.Failed (faults self.old) (faults self.new) result }
        ensures accepted { accepted self.new ≡ accepted self.old };

    /// Waits for the next link.
    fn accept(&mut self) -> Result<Self::Link, Failed>
        requires { IsSome (doorway self.old).port }
        ensures untouched { IfOk result (λ link. IfSome (Self.Link.traffic link) IsUntouched) }
        ensures count { IfOk result (λ link. Self.Link.faults link ≡ 0) }
        ensures sent { IfOk result (λ link. Self.Link.waiting link ≡ 0) }
        ensures arrives { IfOk result (λ link. Arrive (doorway self.old) (doorway self.new) (text_of (Self.Link.traffic link) ∷ [])) }
        ensures cause { HasCause (faults self.old) (faults self.new) result }
        ensures accepts { OnOk result (Rose (accepted self.old) (accepted self.new)) }
        ensures none { OnErr result ((doorway self.new ≡ doorway self.old) × (accepted self.new ≡ accepted self.old)) }
        ensures room { room self.new ≡ room self.old };

    /// Closes a link, and keeps its record.
    fn close(&mut self, link: Self::Link)
        requires { 0 < room self.old }
        ensures closed { doorway self.new ≡ record (doorway self.old) {
          closed = (doorway self.old).closed
              ++ record { traffic = Self.Link.traffic link; faults = Self.Link.faults link; waiting = Self.Link.waiting link } ∷ [];
        } }
        ensures room { room self.new + 1 ≡ room self.old }
        ensures accepted { accepted self.new ≡ accepted self.old }
        ensures faults { faults self.new ≡ faults self.old };
}

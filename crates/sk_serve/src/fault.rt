//! Why a server did not end well.
ghost use Rattle.std.specs.Prelude.{◌≡◌};

use sk_io::{DoorFault, Failed};
use sk_model::OutOfMemory;
use std::alloc::AllocError;

/// Why a server did not end well.
#[derive(Clone, Copy, Debug, PartialEq, Eq)]
pub enum ServeFault {
    /// No memory was left.
    OutOfMemory,
    /// A `listen` or an `accept` failed.
    NetFault,
    /// A write of what is due failed.
    WriteFault,
}

impl From<OutOfMemory> for ServeFault {
    ghost use Rattle.sk_serve.specs.declared.fault.ServeFault.TheVariants as fault;

    ghost from_gives = { λ _ e. e ≡ fault.OutOfMemory };

    fn from(_: OutOfMemory) -> Self {
        ServeFault::OutOfMemory
    }
}

impl From<AllocError> for ServeFault {
    ghost use Rattle.sk_serve.specs.declared.fault.ServeFault.TheVariants as fault;

    ghost from_gives = { λ _ e. e ≡ fault.OutOfMemory };

    fn from(_: AllocError) -> Self {
        ServeFault::OutOfMemory
    }
}

impl From<Failed> for ServeFault {
    ghost use Rattle.sk_serve.specs.declared.fault.ServeFault.TheVariants as fault;

    ghost from_gives = { λ _ e. e ≡ fault.NetFault };

    fn from(_: Failed) -> Self {
        ServeFault::NetFault
    }
}

impl From<DoorFault> for ServeFault {
    ghost use Rattle.sk_serve.specs.Faults.{fault_by};

    ghost from_gives = { λ stop e. e ≡ fault_by stop };

    fn from(fault: DoorFault) -> Self {
        match fault {
            DoorFault::Failed => ServeFault::NetFault,
            DoorFault::OutOfMemory => ServeFault::OutOfMemory,
        }
    }
}

//! What calls on tenants answer.
ghost use Rattle.std.specs.Prelude.{◌≡◌};

use crate::desk::Desk;
use crate::tenants::Tenants;
use sk_model::OutOfMemory;

/// What became of an item that was offered for a tenant.
#[derive(Clone, Copy, Debug, PartialEq, Eq)]
pub enum Add {
    /// It is in the tenant's list.
    Kept,
    /// It changes no later word of this tenant.
    Filtered,
    /// The fill buffer is full, and the last one is not published. The item is not kept.
    Busy,
    /// The desk has kept as many items for this tenant as the quota allows.
    Over,
}

/// Tenants, and one desk for each updater of their hubs.
#[derive(Drop)]
pub struct Opening {
    pub hosts: Tenants,
    pub desks: Vec<Desk>,
}

/// Why tenants were not opened.
#[derive(Clone, Copy, Debug, PartialEq, Eq)]
pub enum TenantStop {
    /// The name at this place is the first that equals an earlier one.
    Twice(u32),
    OutOfMemory,
}

impl From<OutOfMemory> for TenantStop {
    ghost use Rattle.sk_tenant.specs.declared.answers.TenantStop.TheVariants as stop;

    ghost from_gives = { λ _ e. e ≡ stop.OutOfMemory };

    fn from(_error: OutOfMemory) -> TenantStop {
        TenantStop::OutOfMemory
    }
}

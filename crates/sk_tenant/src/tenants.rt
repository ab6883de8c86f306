//! The hearts of the tenants' hubs.
ghost use Rattle.std.specs.Prelude.{◌≡◌, ◌≢◌, ◌<◌, length};
ghost use Rattle.sk_tenant.specs.Desks.{DeskState};
ghost use Rattle.sk_tenant.specs.Hosts.{AreTenants, IsDeskOf, AreOfHubs, DrainEach, DrainsDesk, HasTakenInDesk, AreAskedFor};

use crate::desk::Desk;
use crate::names::Names;
use crate::room::{Rooms, drain_one};
use crate::sketch::TenantTheta;
use sk_hub::{Heart, Updater};
use std::marker::Model;
use std::sync::Wait;

/// A hub for each tenant. Tenants are named by their places, from 0.
#[derive(Drop)]
pub struct Tenants {
    pub(crate) names: Names,
    pub(crate) k: u32,
    pub(crate) n: u32,
    // each at the place of its tenant
    pub(crate) hearts: Vec<Heart<TenantTheta>>,
    // for each tenant, where all desks' updaters of its hub are put to be drained at once
    pub(crate) rooms: Rooms,
}

impl Model for Tenants {
    ghost use Rattle.std.specs.Prelude.{◌≡◌, length, replicate};
    ghost use Rattle.sk_tenant.specs.Hosts.{TenantsState, AreTenants};
    ghost use Rattle.sk_tenant.specs.Rooms.{empty_room};

    ghost Value = { TenantsState };

    ghost view = { λ h. record { names = h.names; k = h.k; n = h.n; hearts = h.hearts.items } };

    ghost invariant = { λ h. AreTenants (record { names = h.names; k = h.k; n = h.n; hearts = h.hearts.items })
        × (h.rooms.items ≡ replicate (length h.names) (empty_room h.n)) };
}

impl Tenants {
    /// Their names, which a reader may share that has no desk.
    pub fn names(&self) -> &Names
        ensures value { result.now ≡ self.now.names }
        ensures whole { AreTenants self.now }
    {
        &self.names
    }

    /// Takes in each updater of a desk, once all that it has kept is published. If another seat of its hub propagates, it
    /// waits and tries again.
    pub fn drain<R: Wait>(&mut self, rt: &R, desk: Desk)
        requires desk { IsDeskOf self.old desk }
        ensures drains { DrainsDesk self.old desk self.new }
        ensures taken_in { HasTakenInDesk self.new desk }

        // Desks may be drained in any order.
        ensures others { (d : DeskState) → d.number ≢ desk.number → HasTakenInDesk self.old d → HasTakenInDesk self.new d }
        ensures desks { (d : DeskState) → IsDeskOf self.old d → IsDeskOf self.new d }
    {
        let Desk {
            names: _,
            number: _,
            quota: _,
            updaters,
        } = desk;
        drain_each(rt, &mut self.hearts, updaters);
    }

    /// One load of the published word of the tenant at place t.
    pub fn ask(&mut self, t: u32) -> u64
        requires place { t < length self.old.hearts }
        ensures asked { AreAskedFor self.old t result self.new }
        ensures taken_in { (d : DeskState) → HasTakenInDesk self.old d → HasTakenInDesk self.new d }
        ensures desks { (d : DeskState) → IsDeskOf self.old d → IsDeskOf self.new d }
    {
        let heart = &mut self.hearts[t as usize];
        // It shows how many updaters the hub has.
        let _admitted = heart.admitted();
        heart.ask()
    }
}

// Each heart takes in the updater at its place.
fn drain_each<R: Wait>(
    rt: &R,
    hearts: &mut Vec<Heart<TenantTheta>>,
    updaters: Vec<Updater<TenantTheta>>,
)
    requires { AreOfHubs hearts.old.items updaters.items }
    ensures { DrainEach hearts.old.items updaters.items hearts.new.items }
{
    let mut updaters = updaters;
    'last: while let Some(updater) = updaters.pop() {
        drain_one(rt, &mut hearts[updaters.len()], updater);
    }
}

//! Tenants and desks at their start.
ghost use Rattle.std.specs.Prelude.{◌≡◌, ℕ, ◌≤◌, ◌<◌, length, All, IfOk, OnOk};
ghost use Rattle.sk_model.specs.Limits.{most_kept, most_updaters};
ghost use Rattle.sk_tenant.specs.Names.{bytes_of, most_tenants, AreDifferent, IsFirstTwice};
ghost use Rattle.sk_tenant.specs.Hosts.{AreNewTenants, AreNewDesks, IsDeskOf};
ghost use Rattle.sk_tenant.specs.Rooms.{lists_in, sizes_of};
ghost use Rattle.sk_tenant.specs.Openings.{AreNewHubs, DealsHub, AreUnusedLists, AreDesksOf};

use crate::answers::{Opening, TenantStop};
use crate::desk::Desk;
use crate::names::Names;
use crate::room::{Rooms, deal, empty_rooms};
use crate::sketch::TenantTheta;
use crate::tenants::Tenants;
use sk_hub::{Heart, Opened, open};
use sk_model::OutOfMemory;
use sk_theta::Shape;
use std::alloc::Global;

impl Tenants {
    /// A hub of this shape for each of 1 to 64 names, and a desk for each of its updaters. A desk keeps at most `quota`
    /// items for a tenant, from 1 to 2^40. All memory is taken here.
    pub fn open(
        alloc: Global,
        names: Vec<String>,
        shape: &Shape,
        quota: u64,
    ) -> Result<Opening, TenantStop>
        requires some { 1 ≤ length names.items }
        requires few { length names.items ≤ most_tenants }
        requires quota_some { 1 ≤ quota }
        requires quota_most { quota ≤ most_kept }
        ensures hosts { IfOk result (λ opening. AreNewTenants (bytes_of names.items) shape.now opening.hosts) }
        ensures count { IfOk result (λ opening. length opening.desks.items ≡ shape.now.n) }
        ensures desks { IfOk result (λ opening. AreNewDesks opening.hosts shape.now quota opening.desks.items) }
        ensures of_hosts { IfOk result (λ opening. All (IsDeskOf opening.hosts) opening.desks.items) }

        // Names that are not all different are reported, unless memory runs out.
        ensures different { IfOk result (λ _. AreDifferent (bytes_of names.items)) }
        ensures twice { (i : ℕ) → result ≡ Err (TenantStop.Twice i) → IsFirstTwice (bytes_of names.items) i }
    {
        let names = Names::of(alloc, names)?;
        let (k, n) = (shape.k(), shape.n());
        let (hearts, dealt) = open_hubs(alloc, shape, names.len())?;
        let desks = desks_of(alloc, &names, quota, dealt)?;
        let rooms = empty_rooms(alloc, names.len(), n)?;
        let hosts = Tenants {
            names,
            k,
            n,
            hearts,
            rooms,
        };
        Ok(Opening { hosts, desks })
    }
}

// Hubs of this shape: their hearts, and for each number a room with the updaters that have it.
fn open_hubs(
    alloc: Global,
    shape: &Shape,
    count: u32,
) -> Result<(Vec<Heart<TenantTheta>>, Rooms), OutOfMemory>
    ensures { IfOk result (λ made. AreNewHubs shape.now count made.0.items (lists_in made.1.items)) }
{
    let mut hearts = Vec::with_capacity(alloc, count as usize)?;
    let mut rooms = empty_rooms(alloc, shape.n(), count)?;
    'tenant: for _ in 0..count {
        hearts.push(open_hub(alloc, shape, &mut rooms)?)?;
    }
    Ok((hearts, rooms))
}

// Opens a hub, and deals its updaters to the rooms.
fn open_hub(
    alloc: Global,
    shape: &Shape,
    rooms: &mut Rooms,
) -> Result<Heart<TenantTheta>, OutOfMemory>
    requires count { length rooms.old.items ≡ shape.now.n }
    requires room { All (λ room. length room.items < room.most) rooms.old.items }
    ensures deals { IfOk result (λ heart. DealsHub shape.now heart (lists_in rooms.old.items) (lists_in rooms.new.items)) }
    ensures most { OnOk result (sizes_of rooms.new.items ≡ sizes_of rooms.old.items) }
{
    let sketch = TenantTheta::new(alloc, shape.k())?;
    let Opened {
        heart,
        updaters,
        token: _,
    } = open(alloc, shape, sketch)?;
    deal(rooms, updaters);
    Ok(heart)
}

// A desk for each room, at the place of its number, with the updaters there.
fn desks_of(
    alloc: Global,
    names: &Names,
    quota: u64,
    rooms: Rooms,
) -> Result<Vec<Desk>, OutOfMemory>
    requires few_names { length names.now ≤ most_tenants }
    requires different { AreDifferent names.now }
    requires few { length rooms.items ≤ most_updaters }
    requires unused { AreUnusedLists (length names.now) (lists_in rooms.items) }
    requires quota_some { 1 ≤ quota }
    requires quota_most { quota ≤ most_kept }
    ensures { IfOk result (λ desks. AreDesksOf names.now quota (lists_in rooms.items) desks.items) }
{
    let mut desks = Vec::with_capacity(alloc, rooms.len())?;
    'room: for room in rooms {
        let number = desks.len() as u32;
        let desk = Desk {
            names: names.share()?,
            number,
            quota,
            updaters: room.into_updaters(),
        };
        desks.push(desk)?;
    }
    Ok(desks)
}

//! All desks taken in at once, tenant by tenant.
ghost use Rattle.std.specs.Prelude.{◌≡◌, length, replicate, All};
ghost use Rattle.sk_tenant.specs.Rooms.{empty_room, lists_in, sizes_of, emptied};
ghost use Rattle.sk_tenant.specs.Hosts.{AreNumbered, IsDeskOf, DrainsDesks, HasTakenInDesk};
ghost use Rattle.sk_tenant.specs.Drainings.{HasAllTenants, AreByTenant, AreListsOf, DrainLists};

use crate::desk::Desk;
use crate::room::{Room, Rooms, deal};
use crate::sketch::TenantTheta;
use crate::tenants::Tenants;
use sk_hub::Heart;
use std::sync::Wait;
use std::thread::{Threads, join_mut};

impl Tenants {
    /// Takes in all desks, in the order of their numbers. Threads share out the tenants' hubs, at most as many as there are
    /// desks, if they can be started: a sketch comes to a cache once, and not once for each desk.
    pub fn drain_all<R: Threads + Wait + Sync>(&mut self, rt: &R, desks: Vec<Desk>)
        requires desks { All (IsDeskOf self.old) desks.items }
        requires numbers { AreNumbered desks.items }
        requires all { length desks.items ≡ self.old.n }
        ensures drains { DrainsDesks self.old desks.items self.new }
        ensures taken_in { All (HasTakenInDesk self.new) desks.items }
    {
        let threads = self.n.min(self.names.len()) as usize;
        deal_desks(&mut self.rooms, desks);
        drain_hubs(rt, &mut self.hearts, &mut self.rooms, threads);
    }
}

// Each tenant's room gets all desks' updaters of its hub, in the order of the desks.
fn deal_desks(rooms: &mut Rooms, desks: Vec<Desk>)
    requires tenants { All (λ d. length d.updaters ≡ length rooms.old.items) desks.items }
    requires empty { rooms.old.items ≡ replicate (length rooms.old.items) (empty_room (length desks.items)) }
    ensures lists { AreByTenant (length rooms.old.items) desks.items (lists_in rooms.new.items) }
    ensures most { sizes_of rooms.new.items ≡ sizes_of rooms.old.items }
    ensures desks { All (HasAllTenants (length rooms.old.items)) desks.items }
{
    'desk: for desk in desks {
        deal(rooms, desk.into_updaters());
    }
}

// Each heart drains the updaters in the room at its place, in at most this many threads.
fn drain_hubs<R: Threads + Wait + Sync>(
    rt: &R,
    hearts: &mut Vec<Heart<TenantTheta>>,
    rooms: &mut Rooms,
    threads: usize,
)
    requires { AreListsOf hearts.old.items (lists_in rooms.old.items) }
    ensures drains { DrainLists hearts.old.items (lists_in rooms.old.items) hearts.new.items }
    ensures empty { rooms.new.items ≡ emptied rooms.old.items }
{
    drain_parts(rt, hearts.as_mut_slice(), rooms.as_mut_slice(), threads);
}

// The same, halved as long as there are threads for both halves.
#[cycle(parts)]
fn drain_parts<R: Threads + Wait + Sync>(
    rt: &R,
    hearts: &mut [Heart<TenantTheta>],
    rooms: &mut [Room],
    threads: usize,
)
    requires { AreListsOf hearts.old (lists_in rooms.old) }
    ensures drains { DrainLists hearts.old (lists_in rooms.old) hearts.new }
    ensures empty { rooms.new ≡ emptied rooms.old }
{
    if threads < 2 {
        return drain_rooms(rt, hearts, rooms);
    }
    let half = hearts.len() / 2;
    let (first, last) = hearts.split_at_mut(half);
    let (earlier, later) = rooms.split_at_mut(half);
    drain_both(rt, first, earlier, last, later, threads / 2);
}

// The first hearts drain in a thread of their own, and the last ones here.
#[cycle(parts)]
fn drain_both<R: Threads + Wait + Sync>(
    rt: &R,
    first: &mut [Heart<TenantTheta>],
    earlier: &mut [Room],
    last: &mut [Heart<TenantTheta>],
    later: &mut [Room],
    threads: usize,
)
    requires first { AreListsOf first.old (lists_in earlier.old) }
    requires last { AreListsOf last.old (lists_in later.old) }
    ensures first { DrainLists first.old (lists_in earlier.old) first.new }
    ensures earlier { earlier.new ≡ emptied earlier.old }
    ensures last { DrainLists last.old (lists_in later.old) last.new }
    ensures later { later.new ≡ emptied later.old }
{
    join_mut(
        rt,
        &mut ||
            requires { AreListsOf first.now (lists_in earlier.now) }
            ensures drains { DrainLists first.entry.now (lists_in earlier.entry.now) first.exit.now }
            ensures empty { earlier.exit.now ≡ emptied earlier.entry.now }
        { drain_parts(rt, first, earlier, threads) },
        &mut ||
            requires { AreListsOf last.now (lists_in later.now) }
            ensures drains { DrainLists last.entry.now (lists_in later.entry.now) last.exit.now }
            ensures empty { later.exit.now ≡ emptied later.entry.now }
        { drain_parts(rt, last, later, threads) },
    );
}

// Each heart drains the updaters in the room at its place, in this thread.
fn drain_rooms<R: Wait>(rt: &R, hearts: &mut [Heart<TenantTheta>], rooms: &mut [Room])
    requires { AreListsOf hearts.old (lists_in rooms.old) }
    ensures drains { DrainLists hearts.old (lists_in rooms.old) hearts.new }
    ensures empty { rooms.new ≡ emptied rooms.old }
{
    let mut left = hearts.len();
    'last: while left > 0 {
        left -= 1;
        rooms[left].drain_into(rt, &mut hearts[left]);
    }
}

//! Room for updaters, whose memory is all taken when it is made.
ghost use Rattle.std.specs.Prelude.{◌≡◌, ◌<◌, [], ◌∷◌, ◌++◌, length, replicate, All, IfOk};
ghost use Rattle.sk_feed.specs.Drained.{DrainsAll};
ghost use Rattle.sk_hub.specs.Drains.{IsDrained};
ghost use Rattle.sk_tenant.specs.Openings.{AreDealt};
ghost use Rattle.sk_tenant.specs.Rooms.{empty_room, lists_in, sizes_of};
ghost use Rattle.sk_tenant.specs.Drainings.{AreAllOf};

use crate::sketch::TenantTheta;
use sk_hub::{Drain, Heart, Updater};
use sk_model::OutOfMemory;
use std::alloc::Global;
use std::marker::Model;
use std::sync::Wait;

/// Updaters of a desk, one of each tenant's hub, or of a hub, one of each desk.
#[derive(Drop)]
pub(crate) struct Room {
    updaters: Vec<Updater<TenantTheta>>,
}

/// Rooms for the updaters of all desks, or of all tenants' hubs.
pub(crate) type Rooms = Vec<Room>;

impl Model for Room {
    ghost use Rattle.std.specs.Prelude.{vec_capacity};
    ghost use Rattle.sk_tenant.specs.Rooms.{RoomState};

    ghost Value = { RoomState };

    ghost view = { λ r. record { items = r.updaters.items; most = vec_capacity r.updaters } };
}

impl Room {
    /// Room for this many updaters.
    pub(crate) fn with_capacity(alloc: Global, most: u32) -> Result<Room, OutOfMemory>
        ensures { IfOk result (λ room. room ≡ empty_room most) }
    {
        Ok(Room {
            updaters: Vec::with_capacity(alloc, most as usize)?,
        })
    }

    /// Puts one more, after the others.
    pub(crate) fn put(&mut self, updater: Updater<TenantTheta>)
        requires room { length self.old.items < self.old.most }
        ensures { self.new ≡ record self.old { items = self.old.items ++ updater ∷ [] } }
    {
        self.updaters.push_reserved(updater);
    }

    /// The updaters in it.
    pub(crate) fn into_updaters(self) -> Vec<Updater<TenantTheta>>
        ensures { result.items ≡ self.items }
    {
        self.updaters
    }

    /// A heart takes in all updaters of its hub, in the order of their numbers. The room can be used again.
    pub(crate) fn drain_into<R: Wait>(&mut self, rt: &R, heart: &mut Heart<TenantTheta>)
        requires all { AreAllOf heart.old self.old.items }
        ensures drains { DrainsAll heart.old self.old.items heart.new }
        ensures empty { self.new ≡ empty_room self.old.most }
    {
        // They are taken from the end.
        self.updaters.as_mut_slice().reverse();
        'first: while let Some(updater) = self.updaters.pop() {
            drain_one(rt, heart, updater);
        }
    }
}

/// A heart takes in an updater. The merges of its sketch take no memory.
pub(crate) fn drain_one<R: Wait>(
    rt: &R,
    heart: &mut Heart<TenantTheta>,
    updater: Updater<TenantTheta>,
)
    requires table { updater.table ≡ heart.old.table }
    ensures { IsDrained heart.old updater heart.new }
{
    match heart.drain(rt, updater) {
        Drain::Drained => {}
        Drain::OutOfMemory(_) => unreachable!(),
    }
}

/// Rooms for this many updaters each.
pub(crate) fn empty_rooms(alloc: Global, count: u32, most: u32) -> Result<Rooms, OutOfMemory>
    ensures { IfOk result (λ rooms. rooms.items ≡ replicate count (empty_room most)) }
{
    let mut rooms = Vec::with_capacity(alloc, count as usize)?;
    'room: for _ in 0..count {
        rooms.push(Room::with_capacity(alloc, most)?)?;
    }
    Ok(rooms)
}

/// Each room gets the updater at its place.
pub(crate) fn deal(rooms: &mut Rooms, updaters: Vec<Updater<TenantTheta>>)
    requires count { length updaters.items ≡ length rooms.old.items }
    requires room { All (λ room. length room.items < room.most) rooms.old.items }
    ensures dealt { AreDealt updaters.items (lists_in rooms.old.items) (lists_in rooms.new.items) }
    ensures most { sizes_of rooms.new.items ≡ sizes_of rooms.old.items }
{
    let mut updaters = updaters;
    'last: while let Some(updater) = updaters.pop() {
        rooms[updaters.len()].put(updater);
    }
}

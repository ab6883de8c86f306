//! A seat that may propagate: an updater's or the heart's.
ghost use Rattle.std.specs.Prelude.{◌≡◌, ◌≤◌};
ghost use Rattle.sk_gate.specs.Moves.{AsksAt};
ghost use Rattle.sk_gate.specs.Hands.{rotated, LiesAt, IsPut};

use crate::plays::Ask;
use crate::rule::{Hub, Slot};
use atomic_table::Seat;
use sk_compose::Composable;
use sk_machine::views::View;
use std::alloc::Global;
use std::marker::{Model, PhantomData};
use std::sync::Arc;

/// Whose seat it is.
pub trait Role {
    ghost use Rattle.std.specs.Prelude.{Bool};

    ghost is_heart: { Bool };
}

/// The role of an updater.
pub struct OfUpdater;

impl Role for OfUpdater {
    ghost use Rattle.std.specs.Prelude.{false};

    ghost is_heart = { false };
}

/// The role of the heart.
pub struct OfHeart;

impl Role for OfHeart {
    ghost use Rattle.std.specs.Prelude.{true};

    ghost is_heart = { true };
}

/// A seat at a hub's table, which may take the turn and propagate. Its slots are kept in one order: that of
/// the updater that it is at, the trunk's, its own.
#[derive(Drop)]
pub struct Propagator<C: Composable, R: Role> {
    pub(crate) hub: Arc<Hub<C>, Global>,
    pub(crate) seat: Seat<Slot<C>, View>,
    pub(crate) number: u32,
    // how many updaters there are
    pub(crate) updaters: u32,
    // how many of the propagator's slots it has
    pub(crate) front: u32,
    // whether it has its own slot
    pub(crate) own: bool,
    pub(crate) role: PhantomData<R>,
}

impl<C: Composable, R: Role> Model for Propagator<C, R> {
    ghost use Rattle.std.specs.Prelude.{◌≡◌, ◌≤◌, ◌+◌};
    ghost use Rattle.std.specs.Arc.{arc_value};
    ghost use Rattle.sk_gate.specs.Slots.{sketching, telling};
    ghost use Rattle.sk_gate.specs.Hands.{SeatState, seat_state, Holds};
    ghost use Rattle.sk_model.specs.Limits.{most_updaters};

    ghost Value = { SeatState };

    ghost view = { λ s. seat_state s.seat.me.0 s.seat.table_id s.number s.front s.seat.me.1 };

    ghost invariant = { λ s. (s.seat.table_id ≡ (arc_value s.hub).shared.table_id)
        × (s.seat.table_id.words ≡ s.updaters + 2)
        × (s.seat.table_id.slots ≡ s.updaters + 1)
        × (s.updaters ≤ most_updaters)
        × Holds (sketching C.is_of C.numbers C.name) (telling C.tells C.told_name C.told_of)
        R.is_heart s.updaters s.number s.front s.own s.seat.me };
}

pub type UpdaterSeat<C> = Propagator<C, OfUpdater>;

pub type HeartSeat<C> = Propagator<C, OfHeart>;

impl<C: Composable, R: Role> Propagator<C, R> {
    /// One load of the published word. It may come between any two other calls.
    pub fn ask(&mut self) -> u64
        ensures told { AsksAt C.packed_of self.old.view result self.new.view }
        ensures seat { self.new ≡ record self.old { view = self.new.view } }
    {
        let hub = &self.hub;
        hub.shared.load::<Ask<C>>(&mut self.seat, 0)
    }
}

// The first slots go after the others, one at a time.
pub(crate) fn rotate<C: Composable>(seat: &mut Seat<Slot<C>, View>, times: u32)
    ensures table { seat.new.table_id ≡ seat.old.table_id }
    ensures id { seat.new.id ≡ seat.old.id }
    ensures me { seat.new.me ≡ (seat.old.me.0, rotated times seat.old.me.1) }
{
    'turn: for _ in 0..times {
        seat.turn();
    }
}

// Puts `new` into a slot that the seat has, with `before` slots before it and `after` slots after it.
pub(crate) fn exchange<C: Composable>(
    hub: &Hub<C>,
    seat: &mut Seat<Slot<C>, View>,
    slot: usize,
    before: u32,
    after: u32,
    new: Slot<C>,
) -> Slot<C>
    requires table { seat.old.table_id ≡ hub.now.shared.table_id }
    requires placed { LiesAt slot before after seat.old.me.1 }
    requires few { after ≤ 2 }
    ensures table { seat.new.table_id ≡ seat.old.table_id }
    ensures id { seat.new.id ≡ seat.old.id }
    ensures view { seat.new.me.0 ≡ seat.old.me.0 }
    ensures old { IsPut slot before after seat.old.me.1 result new seat.new.me.1 }
{
    rotate(seat, before);
    let old = hub.shared.exchange(seat, slot, new);
    rotate(seat, after + 1);
    old
}

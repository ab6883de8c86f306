//! The calls of an updater's seat.
ghost use Rattle.std.specs.Prelude.{◌≡◌, ◌≢◌, ◌+◌, ◌<◌, ◌≤◌, [], length, true, false, Some, None, is_some};
ghost use Rattle.sk_machine.specs.Coarse.{IsBatch};
ghost use Rattle.atomic_table.specs.Table.{Allows, step};
ghost use mathlib.Core.Option.{none};
ghost use Rattle.sk_gate.specs.Slots.{contents, sketching, telling};
ghost use Rattle.sk_gate.specs.Rule.{KeepsRule};
ghost use Rattle.sk_gate.specs.Plays.{admitted};
ghost use Rattle.sk_gate.specs.Views.{size_of, mine_of, leads, after_split, copy_of, after_join};
ghost use Rattle.sk_gate.specs.Hands.{no_own, own_with, own_empty, own_looked, TellsBase, MayLie};
ghost use Rattle.sk_gate.specs.Moves.{LooksAt, AdmitsAt, HandsAt};
ghost use Rattle.sk_model.specs.Limits.{most_size, most_kept};

use crate::load::{Load, parcel_in};
use crate::plays::{Admit, Copying, Hand, Look, Size, TakingIn};
use crate::rule::{Hub, Slot};
use crate::seat::{OfUpdater, Propagator, exchange, rotate};
use crate::token::NoteSeat;
use atomic_table::Seat;
use sk_compose::{Composable, Parcel};
use sk_machine::views::View;
use std::marker::Brand;

// A look that admits an updater, with a size that the proof of the call picks.
fn admitted_look<C: Composable, K: Size>(
    hub: &Hub<C>,
    seat: &mut Seat<Slot<C>, View>,
    word: usize,
    b: u32,
) -> u64
    requires size { K.size ≡ b }
    requires table { seat.old.table_id ≡ hub.now.shared.table_id }
    requires word { word < hub.now.shared.table_id.words }
    requires may { Allows (KeepsRule C.hint_of C.packed_of (sketching C.is_of C.numbers C.name)
        (telling C.tells C.told_name C.told_of))
        hub.now.shared.table_id.slots seat.old.id seat.old.me word (λ n. n)
        (admitted C.hint_of b (step hub.now.shared.table_id.slots word 0 0 none) seat.old.me) }
    ensures table { seat.new.table_id ≡ seat.old.table_id }
    ensures id { seat.new.id ≡ seat.old.id }
    ensures told { admitted C.hint_of b (step hub.now.shared.table_id.slots word 0 0 none)
        seat.old.me result seat.new.me }
{
    hub.shared.load::<Admit<C, K>>(seat, word)
}

impl<C: Composable> Propagator<C, OfUpdater> {
    /// One load of the own word. Where it gives a number other than 0, that is the hint of the new base.
    pub fn look(&mut self) -> u64
        requires admitted { size_of self.old.view self.old.number ≢ 0 }
        requires unswapped { self.old.own.items ≡ [] }
        ensures told { LooksAt C.hint_of self.old.view result self.new.view self.old.number }
        ensures seat { self.new ≡ record self.old {
          view = self.new.view;
          own = own_looked result self.old.view self.old.number self.old.own;
        } }
    {
        let hub = &self.hub;
        let word = self.number as usize + 1;
        let found = hub.shared.load::<Look<C>>(&mut self.seat, word);
        if found != 0 && !self.own {
            self.seat.turn();
            self.own = true;
        }
        found
    }

    // Lays a parcel into the own slot, for the empty one that lies there.
    fn exchange_own(&mut self, parcel: Parcel<C::Told>) -> Parcel<C::Told>
        requires ready { (mine_of self.old.view).ready ≡ true }
        requires unswapped { self.old.own.items ≡ [] }
        requires fits { MayLie self.old.view
            (telling C.tells C.told_name C.told_of) self.old.number parcel }
        ensures empty { result.buffer ≡ contents [] self.old.own.capacity }
        ensures told { is_some result.told ≡ self.old.own.told }
        ensures tells { TellsBase self.old.view (telling C.tells C.told_name C.told_of) result }
        ensures seat { self.new ≡ record self.old { own = own_with parcel } }
    {
        let slot = self.number as usize;
        let parcel = Some(Load::Parcel(parcel));
        let empty = exchange(&self.hub, &mut self.seat, slot, self.front, 0, parcel);
        parcel_in(empty)
    }

    /// Lays a full parcel into the slot, for the empty one.
    pub fn swap(&mut self, full: Parcel<C::Told>) -> Parcel<C::Told>
        requires ready { (mine_of self.old.view).ready ≡ true }
        requires unswapped { self.old.own.items ≡ [] }
        requires room { self.old.own.capacity ≡ size_of self.old.view self.old.number }
        requires batch { IsBatch (size_of self.old.view self.old.number) full.buffer.items }
        requires capacity { full.buffer.capacity ≡ size_of self.old.view self.old.number }
        requires few { length (mine_of self.old.view).handed + length full.buffer.items
            ≤ most_kept }
        ensures empty { result.buffer ≡ contents [] (size_of self.old.view self.old.number) }
        ensures told { is_some result.told ≡ self.old.own.told }
        ensures tells { TellsBase self.old.view (telling C.tells C.told_name C.told_of) result }
        ensures seat { self.new ≡ record self.old { own = own_with full } }
    {
        // It shows to the proof that they are items.
        let _count = full.buffer.len();
        self.exchange_own(full)
    }

    /// One store of 0 in the own word. It hands over the items that lie in the slot.
    pub fn hand(&mut self)
        requires swapped { self.old.own.items ≢ [] }
        ensures told { HandsAt self.old.view self.new.view self.old.number self.old.own.items }
        ensures seat { self.new ≡ record self.old { view = self.new.view; own = no_own } }
    {
        rotate(&mut self.seat, self.front);
        let hub = &self.hub;
        let word = self.number as usize + 1;
        hub.shared.store::<Hand<C>>(&mut self.seat, word, 0);
        self.own = false;
    }

    /// Lays an empty parcel into the slot, for the one that was taken.
    pub fn pick(&mut self, empty: Parcel<C::Told>) -> Parcel<C::Told>
        requires ready { (mine_of self.old.view).ready ≡ true }
        requires unswapped { self.old.own.items ≡ [] }
        requires empty { empty.buffer ≡ contents [] (size_of self.old.view self.old.number) }
        requires told { empty.told ≡ None }
        ensures empty { result.buffer ≡ contents [] self.old.own.capacity }
        ensures told { is_some result.told ≡ self.old.own.told }
        ensures tells { TellsBase self.old.view (telling C.tells C.told_name C.told_of) result }
        ensures seat { self.new
            ≡ record self.old { own = own_empty (size_of self.old.view self.old.number) } }
    {
        self.exchange_own(empty)
    }

    /// One load of the own word, by which the updater is admitted, with buffers of b items. It gives the hint
    /// of the empty list. The placeholder in the slot is to be picked before a swap.
    pub fn admit(&mut self, b: u32) -> u64
        requires vacant { size_of self.old.view self.old.number ≡ 0 }
        requires least { 1 ≤ b }
        requires most { b ≤ most_size }
        ensures told { AdmitsAt C.hint_of self.old.view result self.new.view self.old.number b }
        ensures seat { self.new ≡ record self.old { view = self.new.view; own = own_empty 1 } }
    {
        let word = self.number as usize + 1;
        let hint = admitted_look::<C, Brand>(&self.hub, &mut self.seat, word, b);
        self.seat.turn();
        self.own = true;
        hint
    }

    /// A note: what the updater has seen, and what it handed over.
    pub fn split(&mut self) -> NoteSeat<C>
        requires free { leads self.old.view.duty ≡ false }
        ensures seat { self.new ≡ record self.old { view = after_split self.old.view } }
        ensures note { result ≡ record { view = copy_of self.old.view; table = self.old.table } }
    {
        let hub = &self.hub;
        let seat = hub.shared.split_seat::<Copying>(&mut self.seat);
        NoteSeat { seat }
    }

    /// Knows from now on what the note knows too.
    pub fn join(&mut self, other: NoteSeat<C>)
        requires table { other.table ≡ self.old.table }
        requires sized { length other.view.sizes ≡ length self.old.view.sizes }
        ensures seat { self.new ≡ record self.old { view = after_join self.old.view other.view } }
    {
        let NoteSeat { seat } = other;
        let hub = &self.hub;
        hub.shared.join_seat::<TakingIn>(&mut self.seat, seat);
    }
}

//! Tokens and notes: seats that ask, and meet.
ghost use Rattle.std.specs.Prelude.{◌≡◌, IfOk, IfErr};
ghost use Rattle.sk_gate.specs.Views.{after_split, copy_of, after_join};
ghost use Rattle.sk_gate.specs.Moves.{AsksAt};

use crate::plays::{Ask, Copying, TakingIn};
use crate::rule::{Hub, Slot};
use atomic_table::Seat;
use sk_compose::Composable;
use sk_machine::views::View;
use sk_model::OutOfMemory;
use std::alloc::Global;
use std::marker::Model;
use std::sync::Arc;

/// The seat of a token. It may ask at any time, and shares what it knows with whoever takes it in.
#[derive(Drop)]
pub struct TokenSeat<C: Composable> {
    pub(crate) hub: Arc<Hub<C>, Global>,
    pub(crate) seat: Seat<Slot<C>, View>,
}

impl<C: Composable> Model for TokenSeat<C> {
    ghost use Rattle.std.specs.Prelude.{◌≡◌, ◌+◌, ◌≤◌};
    ghost use Rattle.std.specs.Arc.{arc_value};
    ghost use Rattle.sk_gate.specs.Hands.{TokenState};
    ghost use Rattle.sk_gate.specs.Readers.{Reads};

    ghost Value = { TokenState };

    ghost view = { λ s. record { view = s.seat.me.0; table = s.seat.table_id } };

    ghost invariant = { λ s. (s.seat.table_id ≡ (arc_value s.hub).shared.table_id)
        × (s.seat.table_id.words ≡ s.seat.table_id.slots + 1)
        × (1 ≤ s.seat.table_id.slots)
        × Reads s.seat.me };
}

/// A seat that a token or an updater takes in. It does not share the table.
#[derive(Drop)]
pub struct NoteSeat<C: Composable> {
    pub(crate) seat: Seat<Slot<C>, View>,
}

impl<C: Composable> Model for NoteSeat<C> {
    ghost use Rattle.sk_gate.specs.Hands.{TokenState};
    ghost use Rattle.sk_gate.specs.Readers.{Reads};

    ghost Value = { TokenState };

    ghost view = { λ s. record { view = s.seat.me.0; table = s.seat.table_id } };

    ghost invariant = { λ s. Reads s.seat.me };
}

impl<C: Composable> TokenSeat<C> {
    /// One load of the published word.
    pub fn ask(&mut self) -> u64
        ensures told { AsksAt C.packed_of self.old.view result self.new.view }
        ensures table { self.new.table ≡ self.old.table }
    {
        let hub = &self.hub;
        hub.shared.load::<Ask<C>>(&mut self.seat, 0)
    }

    /// A token that has seen and knows the same. Where it is refused no step was taken.
    pub fn split(&mut self) -> Result<TokenSeat<C>, OutOfMemory>
        ensures view { IfOk result (λ _.
            self.new ≡ record self.old { view = after_split self.old.view }) }
        ensures token { IfOk result (λ token.
            token ≡ record { view = copy_of self.old.view; table = self.old.table }) }
        ensures refused { IfErr result (λ _. self.new ≡ self.old) }
    {
        let hub = Arc::try_clone(&self.hub)?;
        let table = &self.hub;
        let seat = table.shared.split_seat::<Copying>(&mut self.seat);
        Ok(TokenSeat { hub, seat })
    }

    /// A note: what the token has seen, and what it knows.
    pub fn note(&mut self) -> NoteSeat<C>
        ensures seat { self.new ≡ record self.old { view = after_split self.old.view } }
        ensures note { result ≡ record { view = copy_of self.old.view; table = self.old.table } }
    {
        let hub = &self.hub;
        let seat = hub.shared.split_seat::<Copying>(&mut self.seat);
        NoteSeat { seat }
    }

    /// Knows from now on what the note knows too.
    pub fn join(&mut self, other: NoteSeat<C>)
        requires table { other.table ≡ self.old.table }
        ensures seat { self.new ≡ record self.old { view = after_join self.old.view other.view } }
    {
        let NoteSeat { seat } = other;
        let hub = &self.hub;
        hub.shared.join_seat::<TakingIn>(&mut self.seat, seat);
    }
}

//! What the heart alone does.
ghost use Rattle.std.specs.Prelude.{◌≡◌, false, [], true};
ghost use Rattle.sk_gate.specs.Views.{size_of, mine_of, leads, after_join};
ghost use Rattle.sk_gate.specs.Hands.{rested_of};

use crate::plays::{Rest, TakingIn};
use crate::seat::{OfHeart, Propagator, UpdaterSeat};
use sk_compose::Composable;

impl<C: Composable> Propagator<C, OfHeart> {
    /// Takes in the seat of an updater, whose last look gave a number other than 0. At one look more it gives
    /// its slot back.
    pub fn join(&mut self, other: UpdaterSeat<C>)
        requires table { other.table ≡ self.old.table }
        requires ready { (mine_of other.view).ready ≡ true }
        requires unswapped { other.own.items ≡ [] }
        requires picked { other.own.capacity ≡ size_of other.view other.number }
        requires free { leads other.view.duty ≡ false }
        ensures seat { self.new ≡ record self.old { view = after_join self.old.view (rested_of other) } }
    {
        let Propagator {
            hub: _,
            seat,
            number,
            updaters: _,
            front: _,
            own: _,
            role: _,
        } = other;
        let mut seat = seat;
        let hub = &self.hub;
        hub.shared.load::<Rest<C>>(&mut seat, number as usize + 1);
        hub.shared.join_seat::<TakingIn>(&mut self.seat, seat);
    }
}

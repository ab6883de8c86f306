//! What lies in the slots of the table, and comes out of them.
ghost use Rattle.std.specs.Prelude.{◌≡◌};
ghost use Rattle.sk_gate.specs.Slots.{full, trunk};

use crate::rule::Slot;
use sk_compose::{Composable, Parcel};

/// A batch that was taken and is not yet published, with its updater's number.
#[derive(Drop)]
pub struct Held<T: Drop> {
    pub i: u32,
    pub parcel: Parcel<T>,
}

/// What whoever propagates needs: the sketch, and a batch that the last one left. The sketch is boxed, since its slot
/// is exchanged twice each time that somebody propagates, which moves all that lies in it.
#[derive(Drop)]
pub struct Trunk<C: Composable> {
    pub global: Box<C>,
    pub held: Option<Held<C::Told>>,
}

/// What a slot may have.
#[derive(Drop)]
pub enum Load<C: Composable> {
    Parcel(Parcel<C::Told>),
    Trunk(Trunk<C>),
}

// The parcel that a slot has.
pub(crate) fn parcel_in<C: Composable>(slot: Slot<C>) -> Parcel<C::Told>
    requires { (p : _) × (slot ≡ full p) }
    ensures { slot ≡ full result }
{
    match slot {
        Some(Load::Parcel(parcel)) => parcel,
        _ => unreachable!(),
    }
}

// The trunk that a slot has.
pub(crate) fn trunk_in<C: Composable>(slot: Slot<C>) -> Trunk<C>
    requires { (t : _) × (slot ≡ trunk t) }
    ensures { slot ≡ trunk result }
{
    match slot {
        Some(Load::Trunk(trunk)) => trunk,
        _ => unreachable!(),
    }
}

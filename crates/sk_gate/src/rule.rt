//! The rule of the table.
use crate::load::Load;
use atomic_table::{Table, TableRule};
use sk_compose::{Composable, Parcel};
use sk_machine::views::View;
use std::alloc::Global;
use std::marker::PhantomData;
use std::snapshot::Snapshot;

/// What a slot has, if it has anything.
pub type Slot<C> = Option<Load<C>>;

/// The rule, for sketches of the type `C`.
pub struct Gate<C> {
    sketch: PhantomData<C>,
}

/// What is given to the table when it is made: the sketch, the parcels, and how many updaters are admitted.
#[derive(Drop)]
pub struct About<C: Composable> {
    pub sketch: Snapshot<C>,
    pub parcels: Snapshot<Vec<Parcel<C::Told>>>,
    pub admitted: u32,
}

impl<C: Composable> TableRule<Slot<C>, View, About<C>> for Gate<C> {
    ghost use Rattle.sk_gate.specs.Slots.{sketching, telling};
    ghost use Rattle.sk_gate.specs.Rule.{KeepsRule};
    ghost use Rattle.sk_gate.specs.Views.{first_view, admitted_sizes};

    ghost holds = { λ _. KeepsRule C.hint_of C.packed_of
        (sketching C.is_of C.numbers C.name) (telling C.tells C.told_name C.told_of) };

    ghost first = { λ about. first_view (admitted_sizes about.admitted about.parcels.value.items)
        (C.numbers about.sketch.value) (C.name about.sketch.value) };
}

/// The table.
pub type Hub<C> = Table<Slot<C>, View, About<C>, Gate<C>, Global>;

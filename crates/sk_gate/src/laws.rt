//! What the rule of the table shows.
ghost use Rattle.sk_gate.specs.Slots.{sketching, telling};
ghost use Rattle.sk_gate.specs.Shows.{AlwaysShown};

use crate::rule::{About, Gate, Slot};
use atomic_table::TableRule;
use sk_compose::Composable;
use sk_machine::views::View;
use std::marker::PhantomData;

/// At every moment between two steps, which is whenever the rule holds that the table runs under, words, parcels
/// and trunk at home, and views show a state of the whole machine that meets its whole invariant.
pub fn a_table_shows_the_invariant<C: Composable>(_sketch: PhantomData<C>)
    ensures { AlwaysShown C.hint_of C.packed_of
        (sketching C.is_of C.numbers C.name) (telling C.tells C.told_name C.told_of)
        ⟦<Gate<C> as TableRule<Slot<C>, View, About<C>>>⟧.holds }
{}

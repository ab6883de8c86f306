//! Two updaters of a hub, of which the later one is drained first.
ghost use Rattle.std.specs.Prelude.{◌≡◌, ◌<◌, All, IfOk, OnOk};
ghost use Rattle.sk_hub.specs.Drains.{IsDrained};
ghost use Rattle.sk_hub.specs.Updaters.{base_of, kept_of};
ghost use Rattle.sk_machine.specs.Coarse.{IsEntry};
ghost use Rattle.sk_model.specs.Entries.{entries_by};
ghost use Rattle.sk_model.specs.Missing.{Begins};

use sk_compose::Composable;
use sk_hub::{
    Drain, Heart, Updater, an_ask_has_what_was_taken_in, drained_is_taken_in, taken_in_stays,
};
use sk_model::OutOfMemory;
use std::sync::Wait;

/// Drains both updaters of a hub of two, the last one first, and returns the word of exactly what
/// they kept. An `Err` drops those that are not drained.
pub fn drain_last_first<C: Composable, R: Wait>(
    rt: &R,
    heart: &mut Heart<C>,
    first: Updater<C>,
    last: Updater<C>,
) -> Result<u64, OutOfMemory>
    requires table_of_first { first.table ≡ heart.old.table }
    requires table_of_last { last.table ≡ heart.old.table }
    requires order { first.number < last.number }
    requires two { heart.old.updaters ≡ 2 }
    ensures word { IfOk result (λ word. word ≡ C.packed_of heart.old.view.numbers heart.new.view.seen) }
    ensures first { OnOk result (entries_by first.number heart.new.view.seen ≡ kept_of first) }
    ensures last { OnOk result (entries_by last.number heart.new.view.seen ≡ kept_of last) }
    ensures only { OnOk result (All (IsEntry 2) heart.new.view.seen) }
    ensures base { OnOk result (Begins (base_of last) heart.new.view.seen) }
{
    take_in(rt, heart, last)?;
    take_in(rt, heart, first)?;
    drained_is_taken_in();
    taken_in_stays();
    an_ask_has_what_was_taken_in();
    // It shows how many updaters the hub has.
    let _admitted = heart.admitted();
    Ok(heart.ask())
}

// Drains an updater.
fn take_in<C: Composable, R: Wait>(
    rt: &R,
    heart: &mut Heart<C>,
    u: Updater<C>,
) -> Result<(), OutOfMemory>
    requires table { u.table ≡ heart.old.table }
    ensures drained { IfOk result (λ _. IsDrained heart.old u heart.new) }
{
    match heart.drain(rt, u) {
        Drain::Drained => Ok(()),
        Drain::OutOfMemory(_) => Err(OutOfMemory),
    }
}

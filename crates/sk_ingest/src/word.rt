//! The word of a source that is fed to a hub: one thread's, over all its items.
ghost use Rattle.std.specs.Prelude.{◌≡◌, ◌≤◌, List, [], ℕ, IfOk, IfSome};
ghost use Rattle.std.specs.Io.KnownBytes.{Consumes, IsAtEnd};
ghost use Rattle.sk_model.specs.Causes.{HasCauseIn};
ghost use Rattle.sk_model.specs.Limits.{source_limit, IsFrom};
ghost use Rattle.sk_model.specs.Sketch.{packed_of};
ghost use Rattle.sk_compose.specs.Numbers.{k_of};
ghost use Rattle.sk_read.specs.Items.{items_by};
ghost use Rattle.sk_read.specs.Units.{units_of, units_by};
ghost use Rattle.sk_fill.specs.Windows.{most_lines};

use crate::ingesting::ingest;
use crate::laws::ingested_units_are_kept;
use crate::report::Report;
use sk_compose::ThetaWord;
use sk_feed::drain_all;
use sk_feed::laws::shares::the_word_is_of_all_that_was_taken;
use sk_hub::{Opened, open};
use sk_io::Source;
use sk_read::{Fault, Intake};
use sk_theta::Shape;
use std::alloc::Global;
use std::marker::PhantomData;
use std::sync::Wait;
use std::thread::Threads;

/// The count and theta of all items of a source, in one word, counted by as many updaters as the shape has.
/// Who takes which item, what is filtered and what a report sees change nothing.
pub fn word_of_source<S: Source, C: ThetaWord + Send, P: Report<C>, R: Threads + Wait + Sync>(
    rt: &R,
    alloc: Global,
    plan: &Intake,
    shape: &Shape,
    global: C,
    source: &mut S,
    report: &mut P,
) -> Result<u64, Fault>
where
    C::Told: Send,
    requires bound { plan.now.most ≤ source_limit }
    requires window { IsFrom 1 most_lines plan.now.window }
    requires fresh { C.is_of global [] }
    requires sketch { IfSome (P.sketch report.old) (λ name. C.name global ≡ name) }
    ensures word { IfOk result (λ word. (bytes : List ℕ) × Consumes (S.left source.old) (S.left source.new) bytes × IsAtEnd (S.left source.new)
        × (word ≡ packed_of (k_of (C.numbers global)) (items_by plan.now.kind (units_of (units_by plan.now.column) bytes)))) }
    ensures reads { HasCauseIn Fault.ReadFault (S.faults source.old) (S.faults source.new) result }
    ensures writes { HasCauseIn Fault.WriteFault (P.faults report.old) (P.faults report.new) result }
{
    // It shows the proof that there is an updater.
    let _updaters = shape.n();
    let mut opened = open(alloc, shape, global)?;
    ingest(rt, alloc, plan, source, &mut opened, report)?;
    // These show the proof what updaters kept, and that its word is that of all that they took.
    ingested_units_are_kept::<C, P>(PhantomData, PhantomData);
    the_word_is_of_all_that_was_taken::<C>(PhantomData);
    let Opened {
        mut heart,
        updaters,
        token: _,
    } = opened;
    Ok(drain_all(rt, &mut heart, updaters)?)
}

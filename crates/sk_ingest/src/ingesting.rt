//! A source that is read to its end and fed to a hub.
ghost use Rattle.std.specs.Prelude.{◌≡◌, ◌≤◌, [], true, false, OnOk, IfOk, IfErr, IfSome};
ghost use Rattle.sk_model.specs.Causes.{HasCauseIn};
ghost use Rattle.sk_model.specs.Limits.{source_limit, IsFrom};
ghost use Rattle.sk_read.specs.Reads.{Reads, ReadsAll};
ghost use Rattle.sk_read.specs.Units.{units_by};
ghost use Rattle.sk_fill.specs.Windows.{most_lines};
ghost use Rattle.sk_feed.specs.Shares.{HaveKeptNone};
ghost use Rattle.sk_feed.specs.Hubs.{hub_of, IsHub};
ghost use Rattle.sk_ingest.specs.Ingests.{terms_of, Ingests, StopsAtUnit, EndsEarly};
ghost use Rattle.sk_ingest.specs.Takers.{IsAlone, UnitsWent, unreported};

use crate::itemized::ingest_fields;
use crate::one_by_one::OneByOne;
use crate::passing::Round;
use crate::report::Report;
use crate::stretches::ingest_stretches;
use crate::ways::{feed_in_threads, feeders_for, threads_for};
use crate::windows::read_windows;
use sk_compose::Composable;
use sk_fill::Window;
use sk_hub::Opened;
use sk_io::Source;
use sk_read::{Fault, Intake, Units, read_units};
use std::alloc::Global;
use std::sync::Wait;
use std::thread::Threads;

/// Feeds the units of a source of fewer than `most` bytes to a hub, a window at a time, and returns how many
/// there were. Each full window is reported if the plan wants it; with a propagator the report finds all published that
/// updaters handed over. After an error the hub is not used again.
pub fn ingest<S: Source, C: Composable + Send, P: Report<C>, R: Threads + Wait + Sync>(
    rt: &R,
    alloc: Global,
    plan: &Intake,
    source: &mut S,
    opened: &mut Opened<C>,
    report: &mut P,
) -> Result<u64, Fault>
where
    C::Told: Send,
    requires bound { plan.now.most ≤ source_limit }
    requires window { IsFrom 1 most_lines plan.now.window }
    requires hub { IsHub (hub_of opened.old) }
    requires fresh { HaveKeptNone opened.old.heart.view.numbers opened.old.updaters.items }
    requires sketch { IfSome (P.sketch report.old) (λ name. opened.old.heart.view.name ≡ name) }
    ensures ok { IfOk result (λ n. ReadsAll (units_by plan.now.column) plan.now.most n
        (λ units. Ingests (terms_of C.keeps_of C.hint_of P.reports P.breaks plan.now) units (hub_of opened.old) report.old (hub_of opened.new) report.new)
        (S.left source.old) (S.left source.new)) }
    ensures refused { IfErr result (EndsEarly (terms_of C.keeps_of C.hint_of P.reports P.breaks plan.now) (S.last source.new) (units_by plan.now.column)
        (S.left source.old) (S.left source.new) (hub_of opened.old) report.old report.new) }
    ensures reads { HasCauseIn Fault.ReadFault (S.faults source.old) (S.faults source.new) result }
    ensures writes { HasCauseIn Fault.WriteFault (P.faults report.old) (P.faults report.new) result }
    ensures stays { S.stands_on source.new ≡ S.stands_on source.old }
    ensures report { P.stands_on report.new ≡ P.stands_on report.old }
    ensures named { P.sketch report.new ≡ P.sketch report.old }
{
    if opened.updaters.len() == 1 && !plan.interim {
        return ingest_one_by_one(rt, alloc, plan, source, opened);
    }
    if is_read_ahead(rt, plan, opened.updaters.len()) {
        return ingest_stretches(rt, alloc, plan, source, opened);
    }
    if !plan.interim && plan.column > 0 {
        return ingest_fields(rt, alloc, plan, source, opened);
    }
    let window = Window::new(alloc, plan.window)?;
    let feeders = feeders_for(rt, alloc, plan, opened.updaters.len())?;
    let mut round = Round { window, feeders };
    let count = read_windows(rt, alloc, plan, source, &mut round, opened, report)?;
    feed_in_threads(rt, opened, &mut round.feeders, &round.window, plan)?;
    Ok(count)
}

// Whether lines are read while others are fed: if nobody asks before the end, and threads are enough.
fn is_read_ahead<R: Threads>(rt: &R, plan: &Intake, updaters: usize) -> bool
    ensures lines { result ≡ true → plan.now.column ≡ 0 }
    ensures unreported { result ≡ true → plan.now.interim ≡ false }
{
    !plan.interim && plan.column == 0 && threads_for(rt, updaters) > 1
}

// Feeds each unit, as soon as it is read, to the one updater of a hub.
fn ingest_one_by_one<S: Source, C: Composable, R: Wait>(
    rt: &R,
    alloc: Global,
    plan: &Intake,
    source: &mut S,
    opened: &mut Opened<C>,
) -> Result<u64, Fault>
    requires bound { plan.now.most ≤ source_limit }
    requires alone { IsAlone plan.now (hub_of opened.old) }
    requires start { UnitsWent (unreported C.keeps_of C.hint_of plan.now) [] (hub_of opened.old) tt (hub_of opened.old) tt }
    ensures read { Reads (S.last source.new) (units_by plan.now.column) plan.now.most (λ units. UnitsWent (unreported C.keeps_of C.hint_of plan.now) units (hub_of opened.old) tt (hub_of opened.new) tt)
        (StopsAtUnit (unreported C.keeps_of C.hint_of plan.now) (hub_of opened.old) tt tt) (S.left source.old) (S.left source.new) result }
    ensures cause { HasCauseIn Fault.ReadFault (S.faults source.old) (S.faults source.new) result }
    ensures stays { S.stands_on source.new ≡ S.stands_on source.old }
{
    let mut taker = OneByOne {
        rt,
        plan: *plan,
        opened,
    };
    read_units(alloc, Units::of(plan.column), plan.most, source, &mut taker)
}

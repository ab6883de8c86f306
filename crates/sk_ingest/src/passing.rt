//! A full window, which is fed and reported.
ghost use Rattle.std.specs.Prelude.{◌≡◌, ◌≤◌, [], ℕ, List, OnOk, IfErr, IfSome, true};
ghost use Rattle.sk_model.specs.Limits.{most_updaters};
ghost use Rattle.sk_feed.specs.Hubs.{Hub, hub_of, IsHub, FeedsWindow};
ghost use Rattle.sk_feed.specs.Rounds.{HaveRoom};
ghost use Rattle.sk_ingest.specs.Ingests.{terms_of, IsReady, IsReported};
ghost use Rattle.sk_ingest.specs.Takers.{IsSetUp, PassesOn, ReportGoesOn};

use crate::report::{Report, Stop};
use crate::ways::{feed_in_threads, feed_window};
use sk_compose::Composable;
use sk_feed::{Feeders, settle_all};
use sk_fill::Window;
use sk_hub::Opened;
use sk_model::OutOfMemory;
use sk_read::{Fault, Intake};
use std::sync::Wait;
use std::thread::Threads;

// A window that is filled, and room in which its blocks are fed.
#[derive(Drop)]
pub(crate) struct Round<C: Composable> {
    pub(crate) window: Window,
    pub(crate) feeders: Feeders<C>,
}

// Feeds and reports a window, and takes its lines out.
pub(crate) fn pass_on<C: Composable + Send, P: Report<C>, R: Threads + Wait + Sync>(
    rt: &R,
    plan: &Intake,
    round: &mut Round<C>,
    opened: &mut Opened<C>,
    report: &mut P,
    line: u64,
) -> Result<(), Fault>
where
    C::Told: Send,
    requires setup { IsSetUp plan.now round.old.window (hub_of opened.old) (P.sketch report.old) }
    requires places { most_updaters ≤ round.old.feeders.most }
    requires hub { IsHub (hub_of opened.old) }
    requires room { HaveRoom round.old.window.lines opened.old.updaters.items }
    ensures passes { PassesOn (terms_of C.keeps_of C.hint_of P.reports P.breaks plan.now) round.old.window.lines line (hub_of opened.old) report.old (hub_of opened.new) report.new result }
    ensures cleared { OnOk result (round.new.window.lines ≡ []) }
    ensures setup { OnOk result (IsSetUp plan.now round.new.window (hub_of opened.new) (P.sketch report.new)) }
    ensures feeders { round.new.feeders ≡ round.old.feeders }
    ensures report { ReportGoesOn P.faults P.stands_on P.sketch Fault.WriteFault report.old report.new result }
{
    feed_in_threads(rt, opened, &mut round.feeders, &round.window, plan)?;
    round.window.clear();
    make_ready(rt, plan, opened)?;
    report_at(plan, line, opened, report)?;
    Ok(())
}

// The same in one thread: a method of a trait, as a taker's, starts none. A taker that puts units into a window one
// by one seldom needs it.
#[inline(never)]
pub(crate) fn pass_in_turn<C: Composable, P: Report<C>, R: Wait>(
    rt: &R,
    plan: &Intake,
    window: &mut Window,
    opened: &mut Opened<C>,
    report: &mut P,
    line: u64,
) -> Result<(), Fault>
    requires hub { IsHub (hub_of opened.old) }
    requires room { HaveRoom window.old.lines opened.old.updaters.items }
    requires setup { IsSetUp plan.now window.old (hub_of opened.old) (P.sketch report.old) }
    ensures cleared { OnOk result (window.new.lines ≡ []) }
    ensures setup { OnOk result (IsSetUp plan.now window.new (hub_of opened.new) (P.sketch report.new)) }
    ensures passes { PassesOn (terms_of C.keeps_of C.hint_of P.reports P.breaks plan.now) window.old.lines line (hub_of opened.old) report.old (hub_of opened.new) report.new result }
    ensures report { ReportGoesOn P.faults P.stands_on P.sketch Fault.WriteFault report.old report.new result }
{
    feed_window(rt, opened, window, plan)?;
    window.clear();
    make_ready(rt, plan, opened)?;
    report_at(plan, line, opened, report)?;
    Ok(())
}

// Makes a hub ready for a report, if interim replies are wanted: with a propagator each updater is settled.
fn make_ready<C: Composable, R: Wait>(
    rt: &R,
    plan: &Intake,
    opened: &mut Opened<C>,
) -> Result<(), OutOfMemory>
    requires hub { IsHub (hub_of opened.old) }
    ensures hub { OnOk result (IsHub (hub_of opened.new)) }
    ensures ready { OnOk result (plan.now.interim ≡ true → IsReady plan.now (hub_of opened.new)) }

    // What was fed is fed still.
    ensures fed { OnOk result ((a : Hub) (lines : List (List ℕ)) → FeedsWindow plan.now.propagator C.keeps_of C.hint_of plan.now.kind lines a (hub_of opened.old)
        → FeedsWindow plan.now.propagator C.keeps_of C.hint_of plan.now.kind lines a (hub_of opened.new)) }
    ensures name { opened.new.heart.view.name ≡ opened.old.heart.view.name }
{
    if !plan.interim || !plan.propagator {
        return Ok(());
    }
    settle_all(rt, &mut opened.heart, &mut opened.updaters)
}

// Reports the hub, if interim replies are wanted.
fn report_at<C: Composable, P: Report<C>>(
    plan: &Intake,
    line: u64,
    opened: &mut Opened<C>,
    report: &mut P,
) -> Result<(), Stop>
    requires hub { IsHub (hub_of opened.old) }
    requires ready { plan.now.interim ≡ true → IsReady plan.now (hub_of opened.old) }
    requires sketch { IfSome (P.sketch report.old) (λ name. opened.old.heart.view.name ≡ name) }
    ensures reported { OnOk result (IsReported (terms_of C.keeps_of C.hint_of P.reports P.breaks plan.now) line (hub_of opened.old) report.old (hub_of opened.new) report.new) }
    ensures stopped { IfErr result (λ stop. (plan.now.interim ≡ true) × P.breaks report.old stop line (hub_of opened.old) (hub_of opened.new) report.new) }
    ensures report { ReportGoesOn P.faults P.stands_on P.sketch Stop.Failed report.old report.new result }
    ensures name { opened.new.heart.view.name ≡ opened.old.heart.view.name }
{
    if plan.interim {
        report.at(line, opened)?;
    }
    Ok(())
}

//! The units of a source, fed to the updaters of a hub and reported a window at a time.
ghost use Rattle.std.specs.Prelude.{◌≡◌, ◌≤◌, ℕ, List, [], OnOk, IfErr};
ghost use Rattle.sk_model.specs.Causes.{HasCauseIn};
ghost use Rattle.sk_model.specs.Limits.{source_limit, most_updaters};
ghost use Rattle.sk_read.specs.Reads.{Reads};
ghost use Rattle.sk_read.specs.Units.{units_by};
ghost use Rattle.sk_feed.specs.Hubs.{hub_of};
ghost use Rattle.sk_ingest.specs.Ingests.{terms_of, StopsAtUnit};
ghost use Rattle.sk_ingest.specs.Takers.{IsSetUp, WindowsWent, ReportGoesOn};

use crate::passing::{Round, pass_on};
use crate::report::Report;
use crate::windowed::read_field_windows;
use sk_compose::Composable;
use sk_fill::fill;
use sk_hub::Opened;
use sk_io::Source;
use sk_read::{Fault, Intake, LineReader};
use std::alloc::Global;
use std::sync::Wait;
use std::thread::Threads;

// Reads a source into a window, which is fed and reported each time it is full: lines or fields.
pub(crate) fn read_windows<S: Source, C: Composable + Send, P: Report<C>, R: Threads + Wait + Sync>(
    rt: &R,
    alloc: Global,
    plan: &Intake,
    source: &mut S,
    round: &mut Round<C>,
    opened: &mut Opened<C>,
    report: &mut P,
) -> Result<u64, Fault>
where
    C::Told: Send,
    requires bound { plan.now.most ≤ source_limit }
    requires places { most_updaters ≤ round.old.feeders.most }
    requires empty { round.old.window.lines ≡ [] }
    requires setup { IsSetUp plan.now round.old.window (hub_of opened.old) (P.sketch report.old) }
    requires start { WindowsWent (terms_of C.keeps_of C.hint_of P.reports P.breaks plan.now) [] (hub_of opened.old) report.old [] (hub_of opened.old) report.old }
    ensures read { Reads (S.last source.new) (units_by plan.now.column) plan.now.most
        (λ units. WindowsWent (terms_of C.keeps_of C.hint_of P.reports P.breaks plan.now) units (hub_of opened.old) report.old round.new.window.lines (hub_of opened.new) report.new)
        (StopsAtUnit (terms_of C.keeps_of C.hint_of P.reports P.breaks plan.now) (hub_of opened.old) report.old report.new) (S.left source.old) (S.left source.new) result }
    ensures reads { HasCauseIn Fault.ReadFault (S.faults source.old) (S.faults source.new) result }
    ensures stays { S.stands_on source.new ≡ S.stands_on source.old }
    ensures report { ReportGoesOn P.faults P.stands_on P.sketch Fault.WriteFault report.old report.new result }
    ensures feeders { round.new.feeders ≡ round.old.feeders }
{
    if plan.column > 0 {
        return read_field_windows(rt, alloc, plan, source, &mut round.window, opened, report);
    }
    let mut reader = LineReader::new(alloc, plan.most)?;
    'window: while fill(&mut reader, source, &mut round.window, plan.kind)? {
        let number = reader.number();
        pass_on(rt, plan, round, opened, report, number)?;
    }
    Ok(reader.number())
}

//! A source's units that are gathered in a window, which is fed and reported each time it is full.
ghost use Rattle.std.specs.Prelude.{◌≡◌, ◌+◌, ◌<◌, ◌≤◌, ℕ, List, [], ◌∷◌, ◌++◌, Some, OnOk, IfErr, IfSome, IsNone, length, true, false};
ghost use Rattle.sk_model.specs.Causes.{HasCauseIn};
ghost use Rattle.sk_model.specs.Limits.{source_limit, line_limit, most_kept};
ghost use Rattle.sk_read.specs.Faults.{IsOfTaker};
ghost use Rattle.sk_read.specs.Items.{item_of, IsGood};
ghost use Rattle.sk_read.specs.Reads.{Reads};
ghost use Rattle.sk_read.specs.Units.{units_by};
ghost use Rattle.sk_feed.specs.Hubs.{Hub, hub_of};
ghost use Rattle.sk_ingest.specs.Ingests.{terms_of, StopsAtUnit};
ghost use Rattle.sk_ingest.specs.Takers.{IsSetUp, WindowsWent, SameReport, ReportStops, ReportGoesOn};

use crate::passing::pass_in_turn;
use crate::report::Report;
use sk_compose::Composable;
use sk_fill::{Window, is_good};
use sk_hub::Opened;
use sk_io::Source;
use sk_lines::Span;
use sk_read::{Fault, Intake, UnitTaker, Units, read_units};
use std::alloc::Global;
use std::sync::Wait;

// Takes units into a window, and feeds and reports it each time it is full.
#[derive(Drop)]
pub(crate) struct Windowed<'r, 'w, 'o, 'p, C: Composable, P, R> {
    pub(crate) rt: &'r R,
    pub(crate) plan: Intake,
    pub(crate) window: &'w mut Window,
    pub(crate) opened: &'o mut Opened<C>,
    pub(crate) report: &'p mut P,
}

impl<C: Composable, P: Report<C>, R: Wait> UnitTaker for Windowed<'_, '_, '_, '_, C, P, R> {
    ghost went = { λ s t units. (t.plan ≡ s.plan)
        × IsSetUp t.plan t.window.now (hub_of t.opened.now) (P.sketch t.report.now)
        × WindowsWent (terms_of C.keeps_of C.hint_of P.reports P.breaks t.plan) units (hub_of s.opened.now) s.report.now t.window.now.lines (hub_of t.opened.now) t.report.now
        × SameReport P.faults P.stands_on P.sketch s.report.now t.report.now };

    ghost stopped = { λ s t why units unit. (t.plan ≡ s.plan)
        × StopsAtUnit (terms_of C.keeps_of C.hint_of P.reports P.breaks t.plan) (hub_of s.opened.now) s.report.now t.report.now why units unit
        × ReportStops P.faults P.stands_on P.sketch s.report.now t.report.now why };

    ghost stands_on = { λ s. record { kind = Some s.plan.kind; borrows = s.window.ghost_name ∷ s.opened.ghost_name ∷ s.report.ghost_name ∷ []; numbers = [] } };

    #[inline(always)]
    fn take(&mut self, unit: &[u8], number: u64) -> Result<(), Fault> {
        let plan = self.plan;
        take_unit(
            self.rt,
            &plan,
            self.window,
            self.opened,
            self.report,
            unit,
            number,
        )
    }

    fn take_all(&mut self, text: &[u8], spans: &[Span], before: u64) -> Result<(), Fault> {
        let mut number = before;
        'unit: for span in spans {
            number += 1;
            self.take(&text[span.from..span.to], number)?;
        }
        Ok(())
    }
}

// Puts a unit into the window. If that is full then, it is fed and reported.
#[inline(always)]
fn take_unit<C: Composable, P: Report<C>, R: Wait>(
    rt: &R,
    plan: &Intake,
    window: &mut Window,
    opened: &mut Opened<C>,
    report: &mut P,
    unit: &[u8],
    number: u64,
) -> Result<(), Fault>
    requires setup { IsSetUp plan.now window.old (hub_of opened.old) (P.sketch report.old) }
    requires short { length unit.now ≤ line_limit }
    requires room { number ≤ most_kept }
    requires behind { (a : Hub) × (r : _) × (units : List (List ℕ)) × (length units + 1 ≡ number)
        × WindowsWent (terms_of C.keeps_of C.hint_of P.reports P.breaks plan.now) units a r window.old.lines (hub_of opened.old) report.old }
    ensures setup { OnOk result (IsSetUp plan.now window.new (hub_of opened.new) (P.sketch report.new)) }
    ensures went { OnOk result ((a : Hub) (r : _) (units : List (List ℕ)) → length units + 1 ≡ number
        → WindowsWent (terms_of C.keeps_of C.hint_of P.reports P.breaks plan.now) units a r window.old.lines (hub_of opened.old) report.old
        → WindowsWent (terms_of C.keeps_of C.hint_of P.reports P.breaks plan.now) (units ++ unit.now ∷ []) a r window.new.lines (hub_of opened.new) report.new) }
    ensures stopped { IfErr result (λ why. (a : Hub) (r : _) (units : List (List ℕ)) → length units + 1 ≡ number
        → WindowsWent (terms_of C.keeps_of C.hint_of P.reports P.breaks plan.now) units a r window.old.lines (hub_of opened.old) report.old
        → StopsAtUnit (terms_of C.keeps_of C.hint_of P.reports P.breaks plan.now) a r report.new why units unit.now) }
    ensures fault { IfErr result (IsOfTaker number) }
    ensures report { ReportGoesOn P.faults P.stands_on P.sketch Fault.WriteFault report.old report.new result }
{
    if !is_good(plan.kind, unit) {
        return Err(Fault::BadItem(number));
    }
    window.push(unit)?;
    if !window.is_full() {
        return Ok(());
    }
    pass_in_turn(rt, plan, window, opened, report, number)
}

// Reads the fields of a source into a window, which is fed and reported each time it is full.
pub(crate) fn read_field_windows<S: Source, C: Composable, P: Report<C>, R: Wait>(
    rt: &R,
    alloc: Global,
    plan: &Intake,
    source: &mut S,
    window: &mut Window,
    opened: &mut Opened<C>,
    report: &mut P,
) -> Result<u64, Fault>
    requires start { WindowsWent (terms_of C.keeps_of C.hint_of P.reports P.breaks plan.now) [] (hub_of opened.old) report.old window.old.lines (hub_of opened.old) report.old }
    requires setup { IsSetUp plan.now window.old (hub_of opened.old) (P.sketch report.old) }
    requires bound { plan.now.most ≤ source_limit }
    ensures stays { S.stands_on source.new ≡ S.stands_on source.old }
    ensures report { ReportGoesOn P.faults P.stands_on P.sketch Fault.WriteFault report.old report.new result }
    ensures setup { OnOk result (IsSetUp plan.now window.new (hub_of opened.new) (P.sketch report.new)) }
    ensures read { Reads (S.last source.new) (units_by plan.now.column) plan.now.most
        (λ units. WindowsWent (terms_of C.keeps_of C.hint_of P.reports P.breaks plan.now) units (hub_of opened.old) report.old window.new.lines (hub_of opened.new) report.new)
        (StopsAtUnit (terms_of C.keeps_of C.hint_of P.reports P.breaks plan.now) (hub_of opened.old) report.old report.new) (S.left source.old) (S.left source.new) result }
    ensures reads { HasCauseIn Fault.ReadFault (S.faults source.old) (S.faults source.new) result }
{
    let mut taker = Windowed {
        rt,
        plan: *plan,
        window,
        opened,
        report,
    };
    read_units(alloc, Units::of(plan.column), plan.most, source, &mut taker)
}

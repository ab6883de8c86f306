//! The fields of a source, of which the items alone are held until a window of them is fed.
ghost use Rattle.std.specs.Prelude.{◌≡◌, ◌+◌, ◌<◌, ◌≤◌, ℕ, List, [], ◌∷◌, ◌++◌, false, Some, IsNone, OnOk, IfOk, IfErr, IfSome, length};
ghost use Rattle.sk_model.specs.Causes.{HasCauseIn};
ghost use Rattle.sk_model.specs.Limits.{source_limit, line_limit, most_kept, IsFrom};
ghost use Rattle.sk_read.specs.Faults.{IsOfTaker};
ghost use Rattle.sk_read.specs.Items.{item_of, IsGood};
ghost use Rattle.sk_read.specs.Reads.{Reads, ReadsAll};
ghost use Rattle.sk_read.specs.Units.{units_by};
ghost use Rattle.sk_fill.specs.Windows.{most_lines};
ghost use Rattle.sk_feed.specs.Hubs.{Hub, hub_of};
ghost use Rattle.sk_ingest.specs.Ingests.{Ingests, StopsAtUnit, EndsEarly};
ghost use Rattle.sk_ingest.specs.Takers.{WindowsWent, unreported};
ghost use Rattle.sk_ingest.specs.ItemWindows.{held_of, IsOfPlan, ItemsWent};

use crate::held_blocks::{feed_held_window, pass_held};
use crate::item_window::ItemWindow;
use sk_compose::Composable;
use sk_hub::Opened;
use sk_io::Source;
use sk_lines::Span;
use sk_read::{Fault, Intake, Kind, UnitTaker, Units, read_units};
use std::alloc::Global;
use std::sync::Wait;

// Feeds the fields in a column of a source to a hub that nobody asks before the end.
pub(crate) fn ingest_fields<S: Source, C: Composable, R: Wait>(
    rt: &R,
    alloc: Global,
    plan: &Intake,
    source: &mut S,
    opened: &mut Opened<C>,
) -> Result<u64, Fault>
    requires bound { plan.now.most ≤ source_limit }
    requires window { IsFrom 1 most_lines plan.now.window }
    requires unreported { plan.now.interim ≡ false }
    requires start { WindowsWent (unreported C.keeps_of C.hint_of plan.now) [] (hub_of opened.old) tt [] (hub_of opened.old) tt }
    ensures ok { IfOk result (λ n. ReadsAll (units_by plan.now.column) plan.now.most n
        (λ units. Ingests (unreported C.keeps_of C.hint_of plan.now) units (hub_of opened.old) tt (hub_of opened.new) tt)
        (S.left source.old) (S.left source.new)) }
    ensures refused { IfErr result (EndsEarly (unreported C.keeps_of C.hint_of plan.now) (S.last source.new) (units_by plan.now.column)
        (S.left source.old) (S.left source.new) (hub_of opened.old) tt tt) }
    ensures cause { HasCauseIn Fault.ReadFault (S.faults source.old) (S.faults source.new) result }
    ensures stays { S.stands_on source.new ≡ S.stands_on source.old }
{
    let mut window = ItemWindow::new(alloc, plan.window)?;
    let count = read_fields(rt, alloc, plan, source, &mut window, opened)?;
    feed_held_window(rt, opened, &window, plan)?;
    Ok(count)
}

// Reads the fields of a source into a window, which is fed each time it is full.
fn read_fields<S: Source, C: Composable, R: Wait>(
    rt: &R,
    alloc: Global,
    plan: &Intake,
    source: &mut S,
    window: &mut ItemWindow,
    opened: &mut Opened<C>,
) -> Result<u64, Fault>
    requires bound { plan.now.most ≤ source_limit }
    requires plan { IsOfPlan plan.now window.old }
    requires start { ItemsWent (unreported C.keeps_of C.hint_of plan.now) [] (hub_of opened.old) window.old (hub_of opened.old) }
    ensures read { Reads (S.last source.new) (units_by plan.now.column) plan.now.most
        (λ units. ItemsWent (unreported C.keeps_of C.hint_of plan.now) units (hub_of opened.old) window.new (hub_of opened.new))
        (StopsAtUnit (unreported C.keeps_of C.hint_of plan.now) (hub_of opened.old) tt tt) (S.left source.old) (S.left source.new) result }
    ensures cause { HasCauseIn Fault.ReadFault (S.faults source.old) (S.faults source.new) result }
    ensures stays { S.stands_on source.new ≡ S.stands_on source.old }
{
    let mut taker = Itemized {
        rt,
        plan: *plan,
        window,
        opened,
    };
    read_units(alloc, Units::of(plan.column), plan.most, source, &mut taker)
}

// Takes units into a window, and feeds it each time it is full.
#[derive(Drop)]
struct Itemized<'r, 'w, 'o, C: Composable, R> {
    rt: &'r R,
    plan: Intake,
    window: &'w mut ItemWindow,
    opened: &'o mut Opened<C>,
}

impl<C: Composable, R: Wait> UnitTaker for Itemized<'_, '_, '_, C, R> {
    ghost went = { λ s t units. (t.plan ≡ s.plan) × IsOfPlan t.plan t.window.now
        × ItemsWent (unreported C.keeps_of C.hint_of t.plan) units (hub_of s.opened.now) t.window.now (hub_of t.opened.now) };

    ghost stopped = { λ s t why units unit. (t.plan ≡ s.plan)
        × StopsAtUnit (unreported C.keeps_of C.hint_of t.plan) (hub_of s.opened.now) tt tt why units unit };

    ghost stands_on = { λ s. record { kind = Some s.plan.kind; borrows = s.window.ghost_name ∷ s.opened.ghost_name ∷ []; numbers = [] } };

    #[inline(always)]
    fn take(&mut self, unit: &[u8], number: u64) -> Result<(), Fault> {
        take_unit(self.rt, &self.plan, self.window, self.opened, unit, number)
    }

    #[inline(always)]
    fn take_all(&mut self, text: &[u8], spans: &[Span], before: u64) -> Result<(), Fault> {
        if self.window.push_all(self.plan.kind, text, spans) {
            return Ok(());
        }
        let mut number = before;
        'unit: for span in spans {
            number += 1;
            self.take(&text[span.from..span.to], number)?;
        }
        Ok(())
    }
}

// Holds a unit. If the window is full then, it is fed.
fn take_unit<C: Composable, R: Wait>(
    rt: &R,
    plan: &Intake,
    window: &mut ItemWindow,
    opened: &mut Opened<C>,
    unit: &[u8],
    number: u64,
) -> Result<(), Fault>
    requires plan { IsOfPlan plan.now window.old }
    requires short { length unit.now ≤ line_limit }
    requires room { number ≤ most_kept }
    requires behind { (a : Hub) × (units : List (List ℕ)) × (length units + 1 ≡ number)
        × ItemsWent (unreported C.keeps_of C.hint_of plan.now) units a window.old (hub_of opened.old) }
    ensures plan { OnOk result (IsOfPlan plan.now window.new) }
    ensures went { OnOk result ((a : Hub) (units : List (List ℕ)) → length units + 1 ≡ number
        → ItemsWent (unreported C.keeps_of C.hint_of plan.now) units a window.old (hub_of opened.old)
        → ItemsWent (unreported C.keeps_of C.hint_of plan.now) (units ++ unit.now ∷ []) a window.new (hub_of opened.new)) }
    ensures stopped { IfErr result (λ why. (a : Hub) (units : List (List ℕ)) → length units + 1 ≡ number
        → ItemsWent (unreported C.keeps_of C.hint_of plan.now) units a window.old (hub_of opened.old)
        → StopsAtUnit (unreported C.keeps_of C.hint_of plan.now) a tt tt why units unit.now) }
    ensures fault { IfErr result (IsOfTaker number) }
{
    let Some(item) = held_of_unit(plan.kind, unit) else {
        return Err(Fault::BadItem(number));
    };
    window.push(item, unit.len());
    if !window.is_full() {
        return Ok(());
    }
    pass_held(rt, plan, window, opened)?;
    Ok(())
}

// What is held of a unit, if it is empty or an item.
fn held_of_unit(kind: Kind, unit: &[u8]) -> Option<u64>
    ensures good { IfSome result (λ item. IsGood kind unit.now) }
    ensures held { IfSome result (λ item. item ≡ held_of kind unit.now) }
    ensures bad { IsNone result → (0 < length unit.now) × IsNone (item_of kind unit.now) }
{
    if unit.is_empty() {
        return Some(0);
    }
    kind.item(unit)
}

//! A source's units that go to the one updater of a hub, one by one.
ghost use Rattle.std.specs.Prelude.{◌≡◌, ◌+◌, ◌<◌, ◌≤◌, ℕ, List, [], ◌∷◌, ◌++◌, Some, OnOk, OnErr, IfOk, IfErr, length, take};
ghost use Rattle.sk_model.specs.Limits.{most_kept};
ghost use Rattle.sk_model.specs.Width.{IsItem, AreItems};
ghost use Rattle.sk_hub.specs.Updaters.{kept_of};
ghost use Rattle.sk_lines.specs.Spans.{AreBehind, lines_at};
ghost use Rattle.sk_read.specs.Faults.{IsOfTaker};
ghost use Rattle.sk_read.specs.Reads.{StopsAmong};
ghost use Rattle.sk_hub.specs.Calls.{Takes};
ghost use Rattle.sk_feed.specs.Hubs.{Hub, hub_of, HeartMayGoOn};
ghost use Rattle.sk_ingest.specs.Ingests.{StopsAtUnit};
ghost use Rattle.sk_ingest.specs.Takers.{UnitsWent, IsAlone, unreported};

use sk_compose::Composable;
use sk_feed::{Propagation, offer, propagate};
use sk_fill::gather;
use sk_hub::{Heart, Opened, Update, Updater};
use sk_lines::{GROUP, Span};
use sk_model::OutOfMemory;
use sk_read::{Fault, Intake, UnitTaker};
use std::sync::Wait;

// Feeds the item of each unit, if it has one, to the updater.
#[derive(Drop)]
pub(crate) struct OneByOne<'r, 'o, C: Composable, R> {
    pub(crate) rt: &'r R,
    pub(crate) plan: Intake,
    pub(crate) opened: &'o mut Opened<C>,
}

impl<C: Composable, R: Wait> UnitTaker for OneByOne<'_, '_, C, R> {
    ghost went = { λ s t units. (t.plan ≡ s.plan) × IsAlone t.plan (hub_of t.opened.now)
        × UnitsWent (unreported C.keeps_of C.hint_of t.plan) units (hub_of s.opened.now) tt (hub_of t.opened.now) tt };

    ghost stopped = { λ s t why units unit. (t.plan ≡ s.plan)
        × StopsAtUnit (unreported C.keeps_of C.hint_of t.plan) (hub_of s.opened.now) tt tt why units unit };

    ghost stands_on = { λ s. record { kind = Some s.plan.kind; borrows = s.opened.ghost_name ∷ []; numbers = [] } };

    #[inline(always)]
    fn take(&mut self, unit: &[u8], number: u64) -> Result<(), Fault> {
        take_unit(self.rt, &self.plan, self.opened, unit, number)
    }

    #[inline(always)]
    fn take_all(&mut self, text: &[u8], spans: &[Span], before: u64) -> Result<(), Fault> {
        take_lines(self.rt, &self.plan, self.opened, text, spans, before)
    }
}

// Feeds the item of a unit, if it has one, to the updater.
#[inline(always)]
fn take_unit<C: Composable, R: Wait>(
    rt: &R,
    plan: &Intake,
    opened: &mut Opened<C>,
    unit: &[u8],
    number: u64,
) -> Result<(), Fault>
    requires alone { IsAlone plan.now (hub_of opened.old) }
    requires room { number ≤ most_kept }
    requires behind { (a : Hub) × (units : List (List ℕ)) × (length units + 1 ≡ number)
        × UnitsWent (unreported C.keeps_of C.hint_of plan.now) units a tt (hub_of opened.old) tt }
    ensures alone { IsAlone plan.now (hub_of opened.new) }
    ensures went { OnOk result ((a : Hub) (units : List (List ℕ)) → length units + 1 ≡ number
        → UnitsWent (unreported C.keeps_of C.hint_of plan.now) units a tt (hub_of opened.old) tt
        → UnitsWent (unreported C.keeps_of C.hint_of plan.now) (units ++ unit.now ∷ []) a tt (hub_of opened.new) tt) }
    ensures stopped { IfErr result (λ why. (a : Hub) (units : List (List ℕ)) → length units + 1 ≡ number
        → UnitsWent (unreported C.keeps_of C.hint_of plan.now) units a tt (hub_of opened.old) tt
        → StopsAtUnit (unreported C.keeps_of C.hint_of plan.now) a tt tt why units unit.now) }
    ensures fault { IfErr result (IsOfTaker number) }
{
    if unit.is_empty() {
        return Ok(());
    }
    match plan.kind.item(unit) {
        Some(item) => {
            let updater = &mut opened.updaters[0];
            feed_one(rt, &mut opened.heart, updater, item, plan)?;
            Ok(())
        }
        None => Err(Fault::BadItem(number)),
    }
}

// Feeds the items of lines, of those that have one, to the updater. Those that its hint filters are left out
// without a branch on each.
#[inline(always)]
fn take_lines<C: Composable, R: Wait>(
    rt: &R,
    plan: &Intake,
    opened: &mut Opened<C>,
    text: &[u8],
    spans: &[Span],
    before: u64,
) -> Result<(), Fault>
    requires few { length spans.now ≤ GROUP }
    requires within { AreBehind 0 spans.now text.now }
    requires alone { IsAlone plan.now (hub_of opened.old) }
    requires room { before + length spans.now ≤ most_kept }
    requires behind { (a : Hub) × (units : List (List ℕ)) × (length units ≡ before)
        × UnitsWent (unreported C.keeps_of C.hint_of plan.now) units a tt (hub_of opened.old) tt }
    ensures alone { IsAlone plan.now (hub_of opened.new) }
    ensures went { OnOk result ((a : Hub) (units : List (List ℕ)) → length units ≡ before
        → UnitsWent (unreported C.keeps_of C.hint_of plan.now) units a tt (hub_of opened.old) tt
        → UnitsWent (unreported C.keeps_of C.hint_of plan.now) (units ++ lines_at spans.now text.now) a tt (hub_of opened.new) tt) }
    ensures stopped { IfErr result (λ why. (a : Hub) (units : List (List ℕ)) → length units ≡ before
        → UnitsWent (unreported C.keeps_of C.hint_of plan.now) units a tt (hub_of opened.old) tt
        → StopsAmong (StopsAtUnit (unreported C.keeps_of C.hint_of plan.now) a tt tt) why units (lines_at spans.now text.now)) }
{
    let mut kept = [0; GROUP];
    let updater = &mut opened.updaters[0];
    let found = gather::<C>(plan.kind, updater.hint(), text, spans, &mut kept);
    feed_items(rt, &mut opened.heart, updater, &kept[..found.items], plan)?;
    if found.lines < spans.len() {
        return Err(Fault::BadItem(before + found.lines as u64 + 1));
    }
    Ok(())
}

// Feeds items, in order.
#[inline(always)]
pub(crate) fn feed_items<C: Composable, R: Wait>(
    rt: &R,
    heart: &mut Heart<C>,
    u: &mut Updater<C>,
    items: &[u64],
    plan: &Intake,
) -> Result<(), OutOfMemory>
    requires items { AreItems items.now }
    requires room { length (kept_of u.old) + length items.now ≤ most_kept }
    ensures taken { OnOk result (Takes C.keeps_of C.hint_of u.old items.now u.new) }
    ensures heart { HeartMayGoOn plan.now.propagator heart.old heart.new }
    ensures some { OnErr result (0 < length items.now) }
{
    let mut at = 0;
    'some: while at < items.len() {
        let count = feed_some(rt, heart, u, &items[at..], plan)?;
        at += count;
    }
    Ok(())
}

// Feeds items, in order, up to one that the updater is busy with, and that one when one has propagated. It returns how
// many they are.
#[inline(always)]
fn feed_some<C: Composable, R: Wait>(
    rt: &R,
    heart: &mut Heart<C>,
    u: &mut Updater<C>,
    items: &[u64],
    plan: &Intake,
) -> Result<usize, OutOfMemory>
    requires some { 0 < length items.now }
    requires items { AreItems items.now }
    requires room { length (kept_of u.old) + length items.now ≤ most_kept }
    ensures count { IfOk result (λ n. (0 < n) × (n ≤ length items.now)) }
    ensures taken { IfOk result (λ n. Takes C.keeps_of C.hint_of u.old (take n items.now) u.new) }
    ensures heart { HeartMayGoOn plan.now.propagator heart.old heart.new }
{
    let count = u.update_each(items);
    if count == items.len() {
        return Ok(count);
    }
    propagate_until_taken(rt, heart, u, items[count], plan)?;
    Ok(count + 1)
}

// Feeds an item until it is taken. When the updater is busy one propagates.
#[inline(always)]
fn feed_one<C: Composable, R: Wait>(
    rt: &R,
    heart: &mut Heart<C>,
    u: &mut Updater<C>,
    item: u64,
    plan: &Intake,
) -> Result<(), OutOfMemory>
    requires item { IsItem item }
    requires room { length (kept_of u.old) < most_kept }
    ensures taken { OnOk result (Takes C.keeps_of C.hint_of u.old (item ∷ []) u.new) }
    ensures heart { HeartMayGoOn plan.now.propagator heart.old heart.new }
{
    match offer(u, item) {
        Update::Busy => propagate_until_taken(rt, heart, u, item, plan),
        Update::Filtered | Update::Kept | Update::Handed => Ok(()),
    }
}

// The same with a loop, which costs as much as the filter, and is seldom needed.
#[inline(never)]
fn propagate_until_taken<C: Composable, R: Wait>(
    rt: &R,
    heart: &mut Heart<C>,
    u: &mut Updater<C>,
    item: u64,
    plan: &Intake,
) -> Result<(), OutOfMemory>
    requires item { IsItem item }
    requires room { length (kept_of u.old) < most_kept }
    ensures taken { OnOk result (Takes C.keeps_of C.hint_of u.old (item ∷ []) u.new) }
    ensures heart { HeartMayGoOn plan.now.propagator heart.old heart.new }
{
    let by = Propagation::of(plan);
    'again: for _ in rt.forever() {
        match offer(u, item) {
            Update::Busy => propagate(rt, heart, u, by)?,
            _ => return Ok(()),
        }
    }
    unreachable!()
}

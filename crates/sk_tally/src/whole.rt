//! The tally of a source before whose end nobody asks: one sketch, which publishes the estimate itself.
ghost use Rattle.std.specs.Prelude.{◌≡◌, ◌≢◌, ◌≤◌, ℕ, List, Option, None, length, flat_map, OnOk, OnErr, IfOk, IfErr};
ghost use Rattle.std.specs.Io.KnownBytes.{Appends};
ghost use Rattle.sk_model.specs.Causes.{AppendsPart, HasCause, HasCauseIn};
ghost use Rattle.sk_model.specs.Limits.{most_updaters, source_limit};
ghost use Rattle.sk_cms.specs.ItemCounts.{item_numbers};
ghost use Rattle.sk_hub.specs.Updaters.{kept_of};
ghost use Rattle.sk_feed.specs.Hubs.{hub_of, IsHub};
ghost use Rattle.sk_tell.specs.Endings.{setting, EndsAt, ReadsUnits};
ghost use Rattle.sk_tell.specs.Feeding.{IsOpened};
ghost use Rattle.sk_tell.specs.Manners.{buffer_size_by};
ghost use Rattle.sk_tally.specs.Headline.{Tallies};
ghost use Rattle.sk_tally.specs.Plans.{tally_manner, IsWithin};
ghost use Rattle.sk_tally.specs.Texts.{count_line};
ghost use Rattle.sk_tally.specs.Whole.{tally_intake, FedWhole, TalliesHub};

use crate::line::write_line;
use crate::plan::Plan;
use sk_cms::{CmsSetup, ItemCount, Tally};
use sk_compose::Composable;
use sk_feed::drain_all;
use sk_hub::{Opened, Updater, open};
use sk_ingest::{Report, Stop, ingest};
use sk_io::{Sink, Source};
use sk_model::OutOfMemory;
use sk_model::limits::LEAST_K;
use sk_read::{Fault, Intake, Kind};
use sk_report::USUAL_WINDOW;
use sk_tell::buffer_size;
use sk_theta::Shape;
use std::alloc::Global;
use std::sync::Wait;
use std::thread::Threads;

// No window is reported, so this is never called.
#[derive(Drop)]
struct Unasked;

impl Report<ItemCount> for Unasked {
    ghost use Rattle.std.specs.Prelude.{⊤, [], None};

    ghost faults = { λ _. 0 };

    ghost reports = { λ _ _ _ _ _. ⊤ };

    ghost breaks = { λ _ _ _ _ _ _. ⊤ };

    ghost stands_on = { λ _. [] };

    ghost sketch = { λ _. None };

    fn at(&mut self, _line: u64, _opened: &mut Opened<ItemCount>) -> Result<(), Stop> {
        Ok(())
    }
}

// The tally of a plan that asks for no window.
pub(crate) fn tally_whole<S: Source, O: Sink, R: Threads + Wait + Sync>(
    rt: &R,
    alloc: Global,
    plan: &Plan,
    most: u64,
    source: &mut S,
    out: &mut O,
) -> Result<(), Fault>
    requires within { IsWithin plan.now }
    requires bound { most ≤ source_limit }
    requires unasked { plan.now.window ≡ None }
    ensures tallies { Tallies plan.now (S.last source.new) most (setting (S.left source.old) (O.written out.old)) (setting (S.left source.new) (O.written out.new)) result }
    ensures quiet { IfErr result (λ fault. fault ≢ Fault.WriteFault → out.new ≡ out.old) }
    ensures reads { HasCauseIn Fault.ReadFault (S.faults source.old) (S.faults source.new) result }
    ensures writes { HasCauseIn Fault.WriteFault (O.faults out.old) (O.faults out.new) result }
    ensures stays { S.stands_on source.new ≡ S.stands_on source.old }
{
    let mut opened = open_hub(alloc, plan)?;
    feed(rt, alloc, plan, most, source, &mut opened)?;
    let tally = close(rt, opened)?;
    write_last(out, tally)
}

// A hub over a sketch of no item, with the updaters of a plan.
#[tactic(auto, unfolding(sk_model::specs::Entries::items_of_entries))]
fn open_hub(alloc: Global, plan: &Plan) -> Result<Opened<ItemCount>, OutOfMemory>
    requires within { IsWithin plan.now }
    ensures opened { IfOk result (λ opened. IsOpened plan.now.updaters (buffer_size_by None plan.now.size) (hub_of opened)) }
    ensures numbers { IfOk result (λ opened. opened.heart.view.numbers ≡ item_numbers plan.now.rows plan.now.width plan.now.item) }
{
    let size = buffer_size(None, plan.size);
    // Its k is of other sketches.
    let Ok(shape) = Shape::new(LEAST_K, size, plan.updaters, 0, false) else {
        unreachable!()
    };
    let setup = CmsSetup {
        rows: plan.rows,
        width: plan.width,
    };
    let sketch = ItemCount::new(alloc, setup, plan.item)?;
    open(alloc, &shape, sketch)
}

// Reads a source to its end, and feeds it to a hub.
fn feed<S: Source, R: Threads + Wait + Sync>(
    rt: &R,
    alloc: Global,
    plan: &Plan,
    most: u64,
    source: &mut S,
    opened: &mut Opened<ItemCount>,
) -> Result<(), Fault>
    requires within { IsWithin plan.now }
    requires bound { most ≤ source_limit }
    requires unasked { plan.now.window ≡ None }
    requires opened { IsOpened plan.now.updaters (buffer_size_by None plan.now.size) (hub_of opened.old) }
    ensures fed { IfOk result (λ _. ReadsUnits plan.now.column most (FedWhole plan.now (hub_of opened.old) (hub_of opened.new)) (S.left source.old) (S.left source.new)) }
    ensures early { IfErr result (λ fault. (written : Option (List ℕ))
        → EndsAt (tally_manner plan.now) (S.last source.new) most (setting (S.left source.old) written) (setting (S.left source.new) written) fault) }
    ensures reads { HasCauseIn Fault.ReadFault (S.faults source.old) (S.faults source.new) result }
    ensures silent { IfErr result (λ fault. fault ≢ Fault.WriteFault) }
    ensures stays { S.stands_on source.new ≡ S.stands_on source.old }
{
    let intake = intake_of(plan, most);
    ingest(rt, alloc, &intake, source, opened, &mut Unasked)?;
    Ok(())
}

// What a plan reads of a source.
fn intake_of(plan: &Plan, most: u64) -> Intake
    ensures { result ≡ tally_intake plan.now most }
{
    Intake {
        kind: Kind::Hash(plan.seed),
        column: plan.column,
        window: plan.window.unwrap_or(USUAL_WINDOW),
        interim: plan.window.is_some(),
        propagator: plan.propagator,
        most,
    }
}

// Takes in all updaters of a hub: how many items they kept, and the word that is then published.
fn close<R: Wait>(rt: &R, opened: Opened<ItemCount>) -> Result<Tally, OutOfMemory>
    requires hub { IsHub (hub_of opened) }
    ensures { IfOk result (λ tally. TalliesHub (hub_of opened) tally.n tally.least) }
{
    let Opened {
        mut heart,
        updaters,
        token: _,
    } = opened;
    // It shows the proof how many updaters the hub has at most.
    let _admitted = heart.admitted();
    let n = count_kept(updaters.as_slice());
    let least = drain_all(rt, &mut heart, updaters)?;
    Ok(Tally { n, least })
}

// How many items updaters kept.
fn count_kept<C: Composable>(updaters: &[Updater<C>]) -> u64
    requires { length updaters.now ≤ most_updaters }
    ensures { result ≡ length (flat_map (λ u. kept_of u) updaters.now) }
{
    let mut count = 0;
    'updater: for i in 0..updaters.len() {
        count += updaters[i].taken();
    }
    count
}

// Writes the line.
fn write_last<O: Sink>(out: &mut O, tally: Tally) -> Result<(), Fault>
    ensures ok { OnOk result (Appends (O.written out.old) (O.written out.new) (count_line tally.n tally.least)) }
    ensures part { OnErr result (AppendsPart (O.written out.old) (O.written out.new) (count_line tally.n tally.least)) }
    ensures fault { IfErr result (λ fault. fault ≡ Fault.WriteFault) }
    ensures cause { HasCause (O.faults out.old) (O.faults out.new) result }
{
    write_line(out, tally).map_err(|_| Fault::WriteFault)
}

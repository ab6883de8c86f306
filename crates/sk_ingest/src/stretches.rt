//! The lines of a source, read a stretch of windows at a time while those before are fed.
ghost use Rattle.std.specs.Prelude.{◌≡◌, ◌≤◌, [], false, OnOk, IfOk, IfErr};
ghost use Rattle.sk_model.specs.Causes.{HasCauseIn};
ghost use Rattle.sk_model.specs.Limits.{source_limit, IsFrom};
ghost use Rattle.sk_read.specs.Reads.{ReadsAll};
ghost use Rattle.sk_read.specs.Units.{units_by};
ghost use Rattle.sk_fill.specs.Windows.{most_lines};
ghost use Rattle.sk_feed.specs.Rounds.{HaveFew};
ghost use Rattle.sk_feed.specs.Hubs.{hub_of, IsHub, FeedsWindows};
ghost use Rattle.sk_ingest.specs.Ingests.{Ingests, EndsEarly};
ghost use Rattle.sk_ingest.specs.Takers.{unreported};
ghost use Rattle.sk_ingest.specs.FedAndRead.{FeedsAndReads, HasStarted};

use crate::lanes::{feed_in_lanes, feed_in_one_lane};
use crate::ways::{feed_stretch, is_short};
use sk_compose::Composable;
use sk_feed::take_turns;
use sk_fill::{Stretch, fill_stretch};
use sk_hub::Opened;
use sk_io::Source;
use sk_lanes::ENOUGH;
use sk_read::{Fault, Intake, LineReader};
use std::alloc::Global;
use std::sync::Wait;
use std::thread::Threads;

// Feeds the lines of a source to a hub that nobody asks before the end. A stretch is fed while the next is read.
pub(crate) fn ingest_stretches<S: Source, C: Composable + Send, R: Threads + Wait + Sync>(
    rt: &R,
    alloc: Global,
    plan: &Intake,
    source: &mut S,
    opened: &mut Opened<C>,
) -> Result<u64, Fault>
where
    C::Told: Send,
    requires bound { plan.now.most ≤ source_limit }
    requires window { IsFrom 1 most_lines plan.now.window }
    requires lines { plan.now.column ≡ 0 }
    requires unreported { plan.now.interim ≡ false }
    requires hub { IsHub (hub_of opened.old) }
    requires few { HaveFew 0 [] opened.old.updaters.items }
    ensures ok { IfOk result (λ n. ReadsAll (units_by plan.now.column) plan.now.most n
        (λ units. Ingests (unreported C.keeps_of C.hint_of plan.now) units (hub_of opened.old) tt (hub_of opened.new) tt)
        (S.left source.old) (S.left source.new)) }
    ensures refused { IfErr result (EndsEarly (unreported C.keeps_of C.hint_of plan.now) (S.last source.new) (units_by plan.now.column)
        (S.left source.old) (S.left source.new) (hub_of opened.old) tt tt) }
    ensures cause { HasCauseIn Fault.ReadFault (S.faults source.old) (S.faults source.new) result }
    ensures stays { S.stands_on source.new ≡ S.stands_on source.old }
{
    let mut reader = LineReader::new(alloc, plan.most)?;
    let mut stretch = Stretch::new(alloc, plan.window);
    let mut more = fill_stretch(&mut reader, source, &mut stretch, plan.kind, ENOUGH)?;
    'stretch: while more {
        more = feed_on(rt, alloc, plan, opened, &mut reader, source, &mut stretch)?;
    }
    feed_stretch(rt, opened, &stretch, plan)?;
    Ok(reader.number())
}

// Feeds a stretch, reads the next one into its place, and returns whether that is full. One that is not short goes to
// threads, and so do those that come after it, as many as they take.
fn feed_on<S: Source, C: Composable + Send, R: Threads + Wait + Sync>(
    rt: &R,
    alloc: Global,
    plan: &Intake,
    opened: &mut Opened<C>,
    reader: &mut LineReader,
    source: &mut S,
    stretch: &mut Stretch,
) -> Result<bool, Fault>
where
    C::Told: Send,
    requires hub { IsHub (hub_of opened.old) }
    requires few { HaveFew stretch.old.first [] opened.old.updaters.items }
    requires started { HasStarted stretch.old reader.old (S.left source.old) }
    ensures goes { FeedsAndReads (λ windows. FeedsWindows plan.now.propagator C.keeps_of C.hint_of plan.now.kind windows (hub_of opened.old) (hub_of opened.new))
        plan.now.kind stretch.old.most stretch.old stretch.new reader.old reader.new (S.left source.old) (S.left source.new) result }
    ensures most { OnOk result (stretch.new.most ≡ stretch.old.most) }
    ensures piece { reader.old.last ≤ S.last source.old → reader.new.last ≤ S.last source.new }
    ensures cause { HasCauseIn Fault.ReadFault (S.faults source.old) (S.faults source.new) result }
    ensures stays { S.stands_on source.new ≡ S.stands_on source.old }
{
    if is_short(stretch) {
        feed_stretch(rt, opened, stretch, plan)?;
        return fill_stretch(reader, source, stretch, plan.kind, ENOUGH);
    }
    // It shows the proof how many updaters a hub has at most.
    let _admitted = opened.heart.admitted();
    let updaters = &mut opened.updaters;
    if take_turns::<C>() {
        return feed_in_one_lane(rt, alloc, plan.kind, updaters, reader, source, stretch);
    }
    feed_in_lanes(rt, alloc, plan.kind, updaters, reader, source, stretch)
}

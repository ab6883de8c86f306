//! Takers of a source's stretches, each in a thread of its own that lasts while the source is read.
ghost use Rattle.std.specs.Prelude.{◌≡◌, ◌<◌, ◌≤◌, ◌∷◌, [], length, All, OnOk, IfOk};
ghost use Rattle.sk_model.specs.Causes.{HasCauseIn};
ghost use Rattle.sk_model.specs.Limits.{most_updaters};
ghost use Rattle.sk_feed.specs.Rounds.{HaveFew};
ghost use Rattle.sk_feed.specs.Shares.{TakeShares};
ghost use Rattle.sk_lanes.specs.Lanes.{AreBehind, HaveRun, TakeAll};
ghost use Rattle.sk_ingest.specs.FedAndRead.{FeedsAndReads, HasStarted};
ghost use Rattle.sk_ingest.specs.Supplies.{HasGiven, Supplies};

use crate::supply::read_and_give;
use sk_compose::Composable;
use sk_feed::TakesStretches;
use sk_fill::Stretch;
use sk_hub::Updater;
use sk_io::Source;
use sk_lanes::{Crewed, Supply, finish, open_lanes, run_beside};
use sk_model::OutOfMemory;
use sk_read::{Fault, Kind, LineReader};
use std::alloc::Global;
use std::mem::replace;
use std::sync::Wait;
use std::thread::Threads;

// Feeds a stretch to all updaters one after another in one thread, and those that are read meanwhile, as long as they
// take turns. The last that was read is not fed: it takes the place of the first.
pub(crate) fn feed_in_one_lane<S: Source, C: Composable + Send, R: Threads + Wait + Sync>(
    rt: &R,
    alloc: Global,
    kind: Kind,
    updaters: &mut Vec<Updater<C>>,
    reader: &mut LineReader,
    source: &mut S,
    stretch: &mut Stretch,
) -> Result<bool, Fault>
where
    C::Told: Send,
    requires count { length updaters.old.items ≤ most_updaters }
    requires few { HaveFew stretch.old.first [] updaters.old.items }
    requires started { HasStarted stretch.old reader.old (S.left source.old) }
    ensures goes { FeedsAndReads (λ windows. TakeShares C.keeps_of C.hint_of kind windows updaters.old.items updaters.new.items)
        kind stretch.old.most stretch.old stretch.new reader.old reader.new (S.left source.old) (S.left source.new) result }
    ensures most { OnOk result (stretch.new.most ≡ stretch.old.most) }
    ensures piece { reader.old.last ≤ S.last source.old → reader.new.last ≤ S.last source.new }
    ensures cause { HasCauseIn Fault.ReadFault (S.faults source.old) (S.faults source.new) result }
    ensures stays { S.stands_on source.new ≡ S.stands_on source.old }
{
    let mut hub = one_of(alloc, replace(updaters, Vec::new(alloc)))?;
    let more = feed_in_lanes(rt, alloc, kind, &mut hub, reader, source, stretch);
    match hub.pop() {
        Some(all) => {
            *updaters = all;
            more
        }
        None => more,
    }
}

// One element alone.
fn one_of<T: Drop>(alloc: Global, element: T) -> Result<Vec<T>, OutOfMemory>
    ensures { IfOk result (λ elements. elements.items ≡ element ∷ []) }
{
    let mut elements = Vec::new(alloc);
    elements.push(element)?;
    Ok(elements)
}

// Feeds a stretch to takers, each in a thread of its own, and those that are read meanwhile. The last that was read is
// not fed: it takes the place of the first.
pub(crate) fn feed_in_lanes<S: Source, T: TakesStretches + Send, R: Threads + Wait + Sync>(
    rt: &R,
    alloc: Global,
    kind: Kind,
    takers: &mut Vec<T>,
    reader: &mut LineReader,
    source: &mut S,
    stretch: &mut Stretch,
) -> Result<bool, Fault>
    requires count { length takers.old.items ≤ most_updaters }
    requires few { All (λ t. T.keeps_at_most t stretch.old.first) takers.old.items }
    requires started { HasStarted stretch.old reader.old (S.left source.old) }
    ensures goes { FeedsAndReads (λ windows. TakeAll (T.took kind) windows takers.old.items takers.new.items)
        kind stretch.old.most stretch.old stretch.new reader.old reader.new (S.left source.old) (S.left source.new) result }
    ensures most { OnOk result (stretch.new.most ≡ stretch.old.most) }
    ensures piece { reader.old.last ≤ S.last source.old → reader.new.last ≤ S.last source.new }
    ensures cause { HasCauseIn Fault.ReadFault (S.faults source.old) (S.faults source.new) result }
    ensures stays { S.stands_on source.new ≡ S.stands_on source.old }
{
    let free = Stretch::new(alloc, stretch.most());
    let first = replace(stretch, free);
    let taken = replace(takers, Vec::new(alloc));
    let (mut crewed, mut supply) = open_lanes(alloc, taken, first)?;
    let more = supply_beside(rt, kind, &mut crewed, reader, source, stretch, &mut supply)?;
    *takers = finish(rt, kind, crewed, supply)?;
    Ok(more)
}

// Reads stretches and gives them to lanes, which run meanwhile.
fn supply_beside<S: Source, T: TakesStretches + Send, R: Threads + Wait + Sync>(
    rt: &R,
    kind: Kind,
    crewed: &mut Crewed<T>,
    reader: &mut LineReader,
    source: &mut S,
    next: &mut Stretch,
    supply: &mut Supply,
) -> Result<bool, Fault>
    requires count { length crewed.old.lanes.items ≤ most_updaters }
    requires behind { AreBehind T.keeps_at_most crewed.old.lanes.items }
    requires given { HasGiven supply.old.outlets reader.old (S.left source.old) }
    requires least { 1 ≤ next.old.most }
    requires same { supply.old.most ≡ next.old.most }
    ensures run { HaveRun (T.took kind) T.keeps_at_most crewed.old.lanes.items crewed.new.lanes.items }
    ensures supplies { Supplies kind next.old.most supply.old.outlets supply.new.outlets next.new reader.old reader.new (S.left source.old) (S.left source.new) result }
    ensures most { next.new.most ≡ next.old.most }
    ensures piece { reader.old.last ≤ S.last source.old → reader.new.last ≤ S.last source.new }
    ensures cause { HasCauseIn Fault.ReadFault (S.faults source.old) (S.faults source.new) result }
    ensures stays { S.stands_on source.new ≡ S.stands_on source.old }
{
    let crew = &crewed.crew;
    run_beside(
        rt,
        &mut crewed.lanes,
        crew,
        kind,
        &mut ||
            requires given { HasGiven supply.now.outlets reader.now (S.left source.now) }
            requires least { 1 ≤ next.now.most }
            requires same { supply.now.most ≡ next.now.most }
            ensures supplies { Supplies kind next.entry.now.most supply.entry.now.outlets supply.exit.now.outlets next.exit.now reader.entry.now reader.exit.now (S.left source.entry.now) (S.left source.exit.now) result }
            ensures most { next.exit.now.most ≡ next.entry.now.most }
            ensures piece { reader.entry.now.last ≤ S.last source.entry.now → reader.exit.now.last ≤ S.last source.exit.now }
            ensures cause { HasCauseIn Fault.ReadFault (S.faults source.entry.now) (S.faults source.exit.now) result }
            ensures stays { S.stands_on source.exit.now ≡ S.stands_on source.entry.now }
        {
            let more = read_and_give(rt, kind, reader, source, next, supply, crew);
            crew.end();
            more
        },
    )
}

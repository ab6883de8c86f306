// Desks that are fed in threads of their own, which last while the source is read.
ghost use Rattle.std.specs.Prelude.{◌≡◌, ◌<◌, ◌≤◌, ◌+◌, length, All};
ghost use Rattle.sk_model.specs.Causes.{HasCauseIn};
ghost use Rattle.sk_model.specs.Limits.{most_updaters};
ghost use Rattle.sk_lanes.specs.Lanes.{AreBehind, HaveRun};
ghost use Rattle.sk_desks.specs.Entries.{window_lines};
ghost use Rattle.sk_desks.specs.Feeds.{HasRoomAfter};
ghost use Rattle.sk_desks.specs.Lanes.{FeedsAndGathers, GathersAndGives, HasGiven, HasStarted, took};

use crate::stretch::{Gatherer, gather_stretch};
use crate::taker::DeskTaker;
use crate::window::MOST_LINES;
use sk_feed::Crew;
use sk_fill::Stretch;
use sk_io::Source;
use sk_label::LabelFault;
use sk_lanes::{Crewed, Supply, finish, open_lanes, run_beside};
use sk_read::Kind;
use std::alloc::Global;
use std::mem::replace;
use std::sync::Wait;
use std::thread::Threads;

// How many stretches are given before desks are woken. A pool has twice as many, so that there is always one for the reader
// if all desks sleep; a call to wake one has its cost.
const GIVEN_AT_ONCE: u32 = 4;

/// Feeds a stretch to desks, each in a thread of its own, and those that are gathered meanwhile. The last that was
/// gathered is not fed: it takes the place of the first.
pub(crate) fn feed_in_lanes<S: Source, R: Threads + Wait + Sync>(
    rt: &R,
    alloc: Global,
    kind: Kind,
    takers: &mut Vec<DeskTaker>,
    gatherer: &mut Gatherer<'_>,
    source: &mut S,
    stretch: &mut Stretch,
) -> Result<bool, LabelFault>
    requires count { length takers.old.items ≤ most_updaters }
    requires room { All (λ t. HasRoomAfter stretch.old.first t.desk) takers.old.items }
    requires started { HasStarted stretch.old gatherer.old.reader (S.left source.old) }
    ensures goes { FeedsAndGathers kind gatherer.old.names.now stretch.old stretch.new takers.old.items takers.new.items gatherer.old.reader gatherer.new.reader (S.left source.old) (S.left source.new) result }
    ensures most { stretch.new.most ≡ window_lines }
    ensures piece { gatherer.old.reader.last ≤ S.last source.old → gatherer.new.reader.last ≤ S.last source.new }
    ensures names { gatherer.new.names.now ≡ gatherer.old.names.now }
    ensures cause { HasCauseIn LabelFault.ReadFault (S.faults source.old) (S.faults source.new) result }
    ensures stays { S.stands_on source.new ≡ S.stands_on source.old }
{
    let first = replace(stretch, Stretch::new(alloc, MOST_LINES));
    let taken = replace(takers, Vec::new(alloc));
    let (mut crewed, mut supply) = open_lanes(alloc, taken, first)?;
    let more = gather_beside(
        rt,
        kind,
        &mut crewed,
        gatherer,
        source,
        stretch,
        &mut supply,
    )?;
    *takers = finish(rt, kind, crewed, supply)?;
    Ok(more)
}

// Gathers stretches and gives them to lanes, which run meanwhile.
fn gather_beside<S: Source, R: Threads + Wait + Sync>(
    rt: &R,
    kind: Kind,
    crewed: &mut Crewed<DeskTaker>,
    gatherer: &mut Gatherer<'_>,
    source: &mut S,
    next: &mut Stretch,
    supply: &mut Supply,
) -> Result<bool, LabelFault>
    requires count { length crewed.old.lanes.items ≤ most_updaters }
    requires behind { AreBehind (λ t count. HasRoomAfter count t.desk) crewed.old.lanes.items }
    requires given { HasGiven supply.old.outlets gatherer.old.reader (S.left source.old) }
    requires most { next.old.most ≡ window_lines }
    requires same { supply.old.most ≡ window_lines }
    ensures run { HaveRun (took kind) (λ t count. HasRoomAfter count t.desk) crewed.old.lanes.items crewed.new.lanes.items }
    ensures gives { GathersAndGives gatherer.old.names.now supply.old.outlets supply.new.outlets next.new gatherer.old.reader gatherer.new.reader (S.left source.old) (S.left source.new) result }
    ensures most { next.new.most ≡ window_lines }
    ensures piece { gatherer.old.reader.last ≤ S.last source.old → gatherer.new.reader.last ≤ S.last source.new }
    ensures names { gatherer.new.names.now ≡ gatherer.old.names.now }
    ensures cause { HasCauseIn LabelFault.ReadFault (S.faults source.old) (S.faults source.new) result }
    ensures stays { S.stands_on source.new ≡ S.stands_on source.old }
{
    let crew = &crewed.crew;
    run_beside(
        rt,
        &mut crewed.lanes,
        crew,
        kind,
        &mut ||
            requires given { HasGiven supply.now.outlets gatherer.now.reader (S.left source.now) }
            requires most { next.now.most ≡ window_lines }
            requires same { supply.now.most ≡ window_lines }
            ensures gives { GathersAndGives gatherer.entry.now.names.now supply.entry.now.outlets supply.exit.now.outlets next.exit.now gatherer.entry.now.reader gatherer.exit.now.reader (S.left source.entry.now) (S.left source.exit.now) result }
            ensures most { next.exit.now.most ≡ window_lines }
            ensures piece { gatherer.entry.now.reader.last ≤ S.last source.entry.now → gatherer.exit.now.reader.last ≤ S.last source.exit.now }
            ensures names { gatherer.exit.now.names.now ≡ gatherer.entry.now.names.now }
            ensures cause { HasCauseIn LabelFault.ReadFault (S.faults source.entry.now) (S.faults source.exit.now) result }
            ensures stays { S.stands_on source.exit.now ≡ S.stands_on source.entry.now }
        {
            let more = gather_and_give(rt, gatherer, source, next, supply, crew);
            crew.end();
            more
        },
    )
}

// Gathers stretches and gives each to all desks, until the source ends, or they do not begin. The last one that was
// gathered was not given.
fn gather_and_give<S: Source, R: Wait>(
    rt: &R,
    gatherer: &mut Gatherer<'_>,
    source: &mut S,
    next: &mut Stretch,
    supply: &mut Supply,
    crew: &Crew,
) -> Result<bool, LabelFault>
    requires given { HasGiven supply.old.outlets gatherer.old.reader (S.left source.old) }
    requires most { next.old.most ≡ window_lines }
    requires same { supply.old.most ≡ window_lines }
    ensures gives { GathersAndGives gatherer.old.names.now supply.old.outlets supply.new.outlets next.new gatherer.old.reader gatherer.new.reader (S.left source.old) (S.left source.new) result }
    ensures most { next.new.most ≡ window_lines }
    ensures piece { gatherer.old.reader.last ≤ S.last source.old → gatherer.new.reader.last ≤ S.last source.new }
    ensures names { gatherer.new.names.now ≡ gatherer.old.names.now }
    ensures cause { HasCauseIn LabelFault.ReadFault (S.faults source.old) (S.faults source.new) result }
    ensures stays { S.stands_on source.new ≡ S.stands_on source.old }
{
    let mut given: u32 = 0;
    'stretch: for _ in rt.forever() {
        if !gather_stretch(gatherer, source, next)? {
            return Ok(false);
        }
        let Some(free) = supply.wait_for_one(rt, crew) else {
            return Ok(true);
        };
        let full = replace(next, free);
        supply.give(rt, full)?;
        given = given.wrapping_add(1);
        wake_after(crew, given);
    }
    unreachable!()
}

// Wakes desks after each `GIVEN_AT_ONCE` stretches.
fn wake_after(crew: &Crew, given: u32) {
    if given % GIVEN_AT_ONCE == 0 {
        crew.wake_feeders();
    }
}

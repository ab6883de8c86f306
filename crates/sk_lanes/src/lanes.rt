//! Takers of stretches, each in a thread of its own that lasts while stretches are read.
ghost use Rattle.std.specs.Prelude.{◌≡◌, ℕ, ◌+◌, ◌<◌, ◌≤◌, [], List, length, map, All, slice_index_or, OnOk, IfOk};
ghost use Rattle.rtrb.specs.Ring.{IsPair};
ghost use Rattle.sk_model.specs.Limits.{most_kept, most_updaters};
ghost use Rattle.sk_fill.specs.Windows.{all_lines};
ghost use Rattle.sk_feed.specs.Deliveries.{IsNext};
ghost use Rattle.sk_lanes.specs.Rings.{AllEnd};
ghost use Rattle.sk_lanes.specs.Lanes.{AreOpen, HaveRun, HaveRunWith, AreBehind, AreBehindIfFed, HaveFinished, TakeAll};

use crate::pool::Pool;
use crate::supply::Supply;
use sk_feed::{Crew, Delivery, Lane, Outlet, TakesStretches};
use sk_fill::Stretch;
use sk_model::OutOfMemory;
use sk_read::Kind;
use std::alloc::Global;
use std::sync::Wait;
use std::thread::{Threads, for_each_mut, join_mut};

/// Takers with their rings, and how their threads and the reader wake one another.
#[derive(Drop)]
pub struct Crewed<T: TakesStretches> {
    /// Each taker with the end of its ring where stretches come.
    pub lanes: Vec<Lane<T>>,
    /// By what they are woken.
    pub crew: Crew,
}

/// A lane for each taker, in order, with a first stretch, and what gives them others. An error comes only when out of
/// memory.
pub fn open_lanes<T: TakesStretches>(
    alloc: Global,
    takers: Vec<T>,
    first: Stretch,
) -> Result<(Crewed<T>, Supply), OutOfMemory>
    requires lines { first.first + length (all_lines first.windows) ≤ most_kept }
    requires few { All (λ t. T.keeps_at_most t first.first) takers.items }
    ensures takers { IfOk result (λ r. map (λ l. l.taker) r.0.lanes.items ≡ takers.items) }
    ensures open { IfOk result (λ r. AreOpen T.keeps_at_most first r.0.lanes.items r.1.outlets) }
    ensures behind { IfOk result (λ r. AreBehind T.keeps_at_most r.0.lanes.items) }
    ensures ends { IfOk result (λ r. AllEnd r.1.outlets (first.first + length (all_lines first.windows))) }
    ensures most { IfOk result (λ r. r.1.most ≡ first.most) }
{
    let mut pool = Pool::new(alloc, first.most());
    let size = first.size();
    let first = Delivery::of(alloc, first)?;
    let (lanes, outlets) = open_each(alloc, takers, &first)?;
    let crew = Crew::new(alloc, lanes.len())?;
    pool.keep(first, size)?;
    Ok((
        Crewed { lanes, crew },
        Supply {
            alloc,
            pool,
            outlets,
        },
    ))
}

// A lane for each taker, in order, with a first stretch, and the other ends of their rings.
fn open_each<T: TakesStretches>(
    alloc: Global,
    takers: Vec<T>,
    first: &Delivery,
) -> Result<(Vec<Lane<T>>, Vec<Outlet>), OutOfMemory>
    requires next { IsNext [] first.now }
    requires few { All (λ t. T.keeps_at_most t first.now.first) takers.items }
    ensures takers { IfOk result (λ r. map (λ l. l.taker) r.0.items ≡ takers.items) }
    ensures open { IfOk result (λ r. AreOpen T.keeps_at_most first.now r.0.items r.1.items) }
{
    let mut lanes = Vec::new(alloc);
    let mut outlets = Vec::new(alloc);
    'open: for taker in takers {
        let (lane, outlet) = Lane::open(alloc, taker, first)?;
        lanes.push(lane)?;
        outlets.push(outlet)?;
    }
    Ok((lanes, outlets))
}

/// Runs lanes, each in a thread of its own, while the work is done here: it gives them stretches, and ends their crew.
pub fn run_beside<T: TakesStretches + Send, R: Threads + Wait + Sync, F: FnMut() -> A, A>(
    rt: &R,
    lanes: &mut Vec<Lane<T>>,
    crew: &Crew,
    kind: Kind,
    work: &mut F,
) -> A
    requires count { length lanes.old.items ≤ most_updaters }
    requires behind { AreBehind T.keeps_at_most lanes.old.items }
    requires work { F.pre work.old }
    ensures run { HaveRun (T.took kind) T.keeps_at_most lanes.old.items lanes.new.items }
    ensures work { F.step work.old result work.new }
{
    let (_, done) = join_mut(
        rt,
        &mut ||
            requires count { length lanes.now.items ≤ most_updaters }
            requires behind { AreBehind T.keeps_at_most lanes.now.items }
            ensures { HaveRun (T.took kind) T.keeps_at_most lanes.entry.now.items lanes.exit.now.items }
        { run_all(rt, lanes, crew, kind) },
        work,
    );
    done
}

// Runs lanes, each in a thread of its own.
fn run_all<T: TakesStretches + Send, R: Threads + Wait + Sync>(
    rt: &R,
    lanes: &mut Vec<Lane<T>>,
    crew: &Crew,
    kind: Kind,
)
    requires count { length lanes.old.items ≤ most_updaters }
    requires behind { AreBehind T.keeps_at_most lanes.old.items }
    ensures { HaveRun (T.took kind) T.keeps_at_most lanes.old.items lanes.new.items }
{
    run_each(rt, lanes.as_mut_slice(), crew, kind);
}

// Split off for the proof: borrows the lanes as a slice.
fn run_each<T: TakesStretches + Send, R: Threads + Wait + Sync>(
    rt: &R,
    lanes: &mut [Lane<T>],
    crew: &Crew,
    kind: Kind,
)
    requires count { length lanes.old ≤ most_updaters }
    requires behind { AreBehind T.keeps_at_most lanes.old }
    ensures { HaveRun (T.took kind) T.keeps_at_most lanes.old lanes.new }
{
    let n = lanes.len();
    for_each_mut(
        rt,
        lanes,
        n.max(1),
        &|i, lane| lane.run(rt, crew, kind, i, n),
    );
}

/// Gives each taker what is left in its ring, once all have run and nothing more is given, and returns them in order.
pub fn finish<T: TakesStretches, R: Wait>(
    rt: &R,
    kind: Kind,
    crewed: Crewed<T>,
    supply: Supply,
) -> Result<Vec<T>, OutOfMemory>
    requires count { length crewed.lanes.items ≤ most_updaters }
    requires ran { (takers : List T) × (windows : List (List (List ℕ))) × HaveRunWith (T.took kind) T.keeps_at_most takers windows crewed.lanes.items supply.outlets }
    ensures took { IfOk result (λ after. (takers : List T) (windows : List (List (List ℕ))) → HaveRunWith (T.took kind) T.keeps_at_most takers windows crewed.lanes.items supply.outlets
        → TakeAll (T.took kind) windows takers after.items) }
{
    let mut crewed = crewed;
    let mut supply = supply;
    finish_each(rt, kind, &mut crewed.lanes, &mut supply.outlets)?;
    takers_of(supply.alloc, crewed.lanes)
}

// Gives each taker what is left in its ring.
fn finish_each<T: TakesStretches, R: Wait>(
    rt: &R,
    kind: Kind,
    lanes: &mut Vec<Lane<T>>,
    outlets: &mut Vec<Outlet>,
) -> Result<(), OutOfMemory>
    requires count { length lanes.old.items ≤ most_updaters }
    requires same { length outlets.old.items ≡ length lanes.old.items }
    requires pairs { (i : ℕ) (d e : _) → i < length lanes.old.items → IsPair (slice_index_or outlets.old.items i e) (slice_index_or lanes.old.items i d).inlet }
    requires behind { AreBehindIfFed T.keeps_at_most lanes.old.items }
    ensures { OnOk result (HaveFinished (T.took kind) T.keeps_at_most lanes.old.items outlets.old.items lanes.new.items) }
{
    let n = lanes.len();
    'lane: for i in 0..n {
        let lane = &mut lanes[i];
        lane.fed?;
        let outlet = &mut outlets[i];
        lane.finish(rt, outlet, kind, i, n)?;
    }
    Ok(())
}

// The takers of lanes, in order.
fn takers_of<T: TakesStretches>(alloc: Global, lanes: Vec<Lane<T>>) -> Result<Vec<T>, OutOfMemory>
    ensures { IfOk result (λ takers. takers.items ≡ map (λ l. l.taker) lanes.items) }
{
    let mut takers = Vec::new(alloc);
    'lane: for lane in lanes {
        takers.push(lane.taker)?;
    }
    Ok(takers)
}

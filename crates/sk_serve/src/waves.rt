//! Sessions in waves: those of one run in parallel, and the next begins once all their updaters are drained.
ghost use Rattle.std.specs.Prelude.{◌≡◌, ℕ, ◌+◌, ◌<◌, ◌≤◌, [], true, length, vec_capacity, is_some, List, All, IfOk, OnOk, OnErr};
ghost use Rattle.atomic_table.specs.Seated.{TableId};
ghost use Rattle.sk_compose.specs.Numbers.{k_of};
ghost use Rattle.sk_hub.specs.Updaters.{kept_of};
ghost use Rattle.sk_model.specs.Limits.{most_kept};
ghost use Rattle.sk_serve.specs.Doors.{door_of};
ghost use Rattle.sk_serve.specs.Faults.{HasNetCause};
ghost use Rattle.sk_serve.specs.Plans.{IsServable};
ghost use Rattle.sk_serve.specs.Served.{AreClosed, Served};
ghost use Rattle.sk_serve.specs.Waves.{CanServe, visit_of, texts_by, left_after, next_count, AreReady, WereRun, StopsShort, StopsInWave, AreOfHub, ClosesLinks, DrainsFrom, ServesWave, ServesSome};

use crate::accepting::accept_wave;
use crate::fault::ServeFault;
use crate::plan::{ServePlan, shape_of};
use sk_heap::HeapTheta;
use sk_hub::{Drain, Heart, Updater};
use sk_io::{Door, Link};
use sk_line::{End, HelpPump, Job, serve_links};
use std::alloc::Global;
use std::sync::Wait;
use std::thread::Threads;

// Serves all sessions, a wave at a time, and returns how they ended.
pub(crate) fn serve_waves<D: Door, R: Threads + Wait + Sync>(
    rt: &R,
    alloc: Global,
    plan: &ServePlan,
    most: u64,
    heart: &mut Heart<HeapTheta>,
    door: &mut D,
) -> Result<Vec<End>, ServeFault>
where
    D::Link: Send,
    requires bound { most ≤ most_kept }
    requires can { CanServe plan.now plan.now.sessions heart.old (door_of D.Door door.old) }
    requires drained { heart.old.view.drained ≡ [] }
    ensures serves { IfOk result (λ ends. (sessions : List Served) × (length sessions ≡ plan.now.sessions)
        × ServesSome plan.now most heart.old heart.new (door_of D.Door door.old) (door_of D.Door door.new) ends.items sessions) }
    ensures stops { OnErr result (StopsInWave plan.now most heart.old heart.new (door_of D.Door door.old) (door_of D.Door door.new)) }
    ensures closed { OnErr result (AreClosed (D.accepted door.old) (D.accepted door.new) (D.doorway door.old) (D.doorway door.new)) }
    ensures net { HasNetCause (D.faults door.old) (D.faults door.new) result }
{
    let mut ends = Vec::with_capacity(alloc, plan.sessions as usize)?;
    'wave: while ends.len() < plan.sessions as usize {
        serve_wave(rt, alloc, plan, most, heart, door, &mut ends)?;
    }
    Ok(ends)
}

// Serves the sessions of the next wave in parallel, closes their links, and drains their updaters.
fn serve_wave<D: Door, R: Threads + Wait + Sync>(
    rt: &R,
    alloc: Global,
    plan: &ServePlan,
    most: u64,
    heart: &mut Heart<HeapTheta>,
    door: &mut D,
    ends: &mut Vec<End>,
) -> Result<(), ServeFault>
where
    D::Link: Send,
    requires bound { most ≤ most_kept }
    requires can { CanServe plan.now (left_after plan.now heart.old) heart.old (door_of D.Door door.old) }
    requires some { heart.old.admitted < plan.now.sessions }
    requires reserved { length ends.old.items + left_after plan.now heart.old ≤ vec_capacity ends.old }
    ensures serves { OnOk result (ServesWave plan.now most heart.old heart.new (door_of D.Door door.old) (door_of D.Door door.new) ends.old.items ends.new.items) }
    ensures reserved { OnOk result (vec_capacity ends.new ≡ vec_capacity ends.old) }
    ensures short { OnErr result (StopsShort (next_count plan.now heart.old) (door_of D.Door door.old) (door_of D.Door door.new)) }
    ensures admits { OnErr result (heart.new ≡ record heart.old { admitted = heart.new.admitted }) }
    ensures net { HasNetCause (D.faults door.old) (D.faults door.new) result }
{
    let count = plan.wave.min(plan.sessions - heart.admitted());
    let mut updaters = Vec::with_capacity(alloc, count as usize)?;
    let jobs = accept_wave(alloc, plan, heart, door, count)?;
    let jobs = run_wave(rt, alloc, plan, most, jobs);
    close_links(door, jobs, ends, &mut updaters);
    drain_each(rt, heart, updaters);
    Ok(())
}

// Runs the sessions of a wave in parallel.
fn run_wave<L: Link + Drop + Send, R: Threads + Wait + Sync>(
    rt: &R,
    alloc: Global,
    plan: &ServePlan,
    most: u64,
    jobs: Vec<Job<HeapTheta, L, HelpPump>>,
) -> Vec<Job<HeapTheta, L, HelpPump>>
    requires within { IsServable plan.now }
    requires bound { most ≤ most_kept }
    requires fresh { All (λ job. (k_of job.updater.view.numbers ≡ plan.now.k) × (kept_of job.updater ≡ [])) jobs.items }
    ensures count { length result.items ≡ length jobs.items }
    ensures texts { texts_by (visit_of L.Link) result.items ≡ texts_by (visit_of L.Link) jobs.items }
    ensures run { (table : TableId) (from : ℕ)
        → AreReady plan.now table from (visit_of L.Link) jobs.items
        → WereRun plan.now most table from (visit_of L.Link) result.items }
{
    let mut jobs = jobs;
    run_all(rt, alloc, plan, most, jobs.as_mut_slice());
    jobs
}

// The same, over the jobs in place.
fn run_all<L: Link + Drop + Send, R: Threads + Wait + Sync>(
    rt: &R,
    alloc: Global,
    plan: &ServePlan,
    most: u64,
    jobs: &mut [Job<HeapTheta, L, HelpPump>],
)
    requires within { IsServable plan.now }
    requires bound { most ≤ most_kept }
    requires fresh { All (λ job. (k_of job.updater.view.numbers ≡ plan.now.k) × (kept_of job.updater ≡ [])) jobs.old }
    ensures count { length jobs.new ≡ length jobs.old }
    ensures texts { texts_by (visit_of L.Link) jobs.new ≡ texts_by (visit_of L.Link) jobs.old }
    ensures run { (table : TableId) (from : ℕ)
        → AreReady plan.now table from (visit_of L.Link) jobs.old
        → WereRun plan.now most table from (visit_of L.Link) jobs.new }
{
    let shape = shape_of(plan);
    serve_links(rt, alloc, &shape, jobs, most);
}

// Closes the links of a wave, in order, and hands out how their sessions ended and their updaters.
fn close_links<D: Door>(
    door: &mut D,
    jobs: Vec<Job<HeapTheta, D::Link, HelpPump>>,
    ends: &mut Vec<End>,
    updaters: &mut Vec<Updater<HeapTheta>>,
)
    requires room { length jobs.items ≤ D.room door.old }
    requires told { All (λ job. is_some job.end ≡ true) jobs.items }
    requires reserved { length ends.old.items + length jobs.items ≤ vec_capacity ends.old }
    requires place { length jobs.items ≤ vec_capacity updaters.old }
    requires none { updaters.old.items ≡ [] }
    ensures closes { (plan : ServePlan) (most : ℕ) (table : TableId) (from : ℕ)
        → WereRun plan most table from (visit_of D.Link.Link) jobs.items
        → ClosesLinks plan most table from (length jobs.items)
        (texts_by (visit_of D.Link.Link) jobs.items) (door_of D.Door door.old) (door_of D.Door door.new) ends.old.items ends.new.items updaters.new.items }
    ensures reserved { vec_capacity ends.new ≡ vec_capacity ends.old }
{
    'job: for job in jobs {
        let Job {
            updater,
            link,
            pump: _,
            end,
        } = job;
        door.close(link);
        let Some(end) = end else { unreachable!() };
        ends.push_reserved(end);
        updaters.push_reserved(updater);
    }
}

// Takes in the updaters of a wave, in order.
fn drain_each<R: Wait>(rt: &R, heart: &mut Heart<HeapTheta>, updaters: Vec<Updater<HeapTheta>>)
    requires table { All (λ u. u.table ≡ heart.old.table) updaters.items }
    ensures drained { (from : ℕ) → AreOfHub heart.old.table from updaters.items → DrainsFrom from heart.old updaters.items heart.new }
{
    'updater: for updater in updaters {
        match heart.drain(rt, updater) {
            Drain::Drained => {}
            Drain::OutOfMemory(_) => unreachable!(),
        }
    }
}

//! Sessions in parallel, each over a link of its own.
ghost use Rattle.std.specs.Prelude.{◌≡◌, ◌+◌, ◌<◌, ◌≤◌, ℕ, All, length, slice_index_or};
ghost use Rattle.sk_compose.specs.Numbers.{k_of};
ghost use Rattle.sk_hub.specs.Updaters.{kept_of};
ghost use Rattle.sk_model.specs.Limits.{most_kept};
ghost use Rattle.sk_line.specs.Jobs.{IsJobDone};
ghost use Rattle.sk_line.specs.Sessions.{session_state};

use crate::pumps::Pump;
use crate::sessions::{End, session};
use sk_compose::{Composable, ThetaWord};
use sk_hub::Updater;
use sk_io::Link;
use sk_theta::Shape;
use std::alloc::Global;
use std::sync::Wait;
use std::thread;
use std::thread::Threads;

/// A session to be run, and how it ended.
#[derive(Drop)]
pub struct Job<C: Composable, L: Drop, P: Drop> {
    pub updater: Updater<C>,
    pub link: L,
    pub pump: P,
    /// None before it was run.
    pub end: Option<End>,
}

impl<C: ThetaWord, L: Link + Drop, P: Pump<C> + Drop> Job<C, L, P> {
    // Runs the session.
    fn run<R: Wait>(&mut self, rt: &R, alloc: Global, shape: &Shape, most: u64)
        requires k { k_of self.old.updater.view.numbers ≡ shape.now.k }
        requires room { length (kept_of self.old.updater) + most ≤ most_kept }
        ensures served { IsJobDone shape.now most (session_state (L.traffic self.old.link) self.old.updater (P.pumps self.old.pump))
            (session_state (L.traffic self.new.link) self.new.updater (P.pumps self.new.pump)) (L.faults self.old.link) (L.faults self.new.link) (L.waiting self.new.link) self.new.end }
        ensures stays { P.stands_on self.new.pump ≡ P.stands_on self.old.pump }
    {
        let end = session(
            rt,
            alloc,
            &mut self.link,
            &mut self.updater,
            &mut self.pump,
            shape,
            most,
        );
        self.end = Some(end);
    }
}

/// Runs the sessions of all jobs in parallel, each in a thread of its own. Each is as `session` says.
pub fn serve_links<
    C: ThetaWord + Send,
    L: Link + Drop + Send,
    P: Pump<C> + Drop + Send,
    R: Threads + Wait + Sync,
>(rt: &R, alloc: Global, shape: &Shape, jobs: &mut [Job<C, L, P>], most: u64)
where
    C::Told: Send,
    requires k { All (λ job. k_of job.updater.view.numbers ≡ shape.now.k) jobs.old }
    requires room { All (λ job. length (kept_of job.updater) + most ≤ most_kept) jobs.old }
    ensures served { (i : ℕ) (d : _) → i < length jobs.old
        → IsJobDone shape.now most (session_state (L.traffic (slice_index_or jobs.old i d).link) (slice_index_or jobs.old i d).updater (P.pumps (slice_index_or jobs.old i d).pump))
        (session_state (L.traffic (slice_index_or jobs.new i d).link) (slice_index_or jobs.new i d).updater (P.pumps (slice_index_or jobs.new i d).pump))
        (L.faults (slice_index_or jobs.old i d).link) (L.faults (slice_index_or jobs.new i d).link) (L.waiting (slice_index_or jobs.new i d).link) (slice_index_or jobs.new i d).end }
    ensures stays { (i : ℕ) (d : _) → i < length jobs.old
        → P.stands_on (slice_index_or jobs.new i d).pump ≡ P.stands_on (slice_index_or jobs.old i d).pump }
{
    let threads = jobs.len().max(1);
    thread::for_each_mut(
        rt,
        jobs,
        threads,
        &|_, job| { job.run(rt, alloc, shape, most) },
    );
}

//! How a window is fed to the updaters of a hub in threads.
ghost use Rattle.std.specs.Prelude.{◌≡◌, ◌≢◌, ◌∷◌, ◌<◌, ◌≤◌, [], length, map, reverse, vec_capacity, OnOk, OnErr, IfOk, IsTrue};
ghost use Rattle.sk_feed.specs.Hubs.{HeartGoesOn};
ghost use Rattle.sk_feed.specs.Rounds.{HaveRoom, TakeBlocks, TakeFronts};
ghost use Rattle.sk_feed.specs.Shares.{TakeShares};
ghost use Rattle.sk_model.specs.Limits.{most_updaters};

use crate::beside::run_beside;
use crate::feeder::{Feeder, feed_each};
use crate::propagation::Propagation;
use sk_compose::Composable;
use sk_fill::Window;
use sk_hub::{Heart, Updater};
use sk_model::OutOfMemory;
use sk_read::Kind;
use std::alloc::Global;
use std::marker::Model;
use std::sync::Wait;
use std::sync::atomic::{AtomicBool, Ordering};
use std::thread::Threads;

/// Room in which updaters are fed in threads. Between two windows it holds none.
#[derive(Drop)]
pub struct Feeders<C: Composable> {
    feeders: Vec<Feeder<C>>,
    most: u32,
    threads: u32,
}

impl<C: Composable> Model for Feeders<C> {
    ghost use Rattle.std.specs.Prelude.{◌≡◌, ◌<◌, ◌≤◌, [], vec_capacity};
    ghost use Rattle.sk_feed.specs.Rounds.{FeedersState};

    ghost Value = { FeedersState };

    ghost view = { λ f. record { most = f.most } };

    ghost invariant = { λ f. (f.feeders.items ≡ []) × (f.most ≤ vec_capacity f.feeders) × (0 < f.threads) };
}

impl<C: Composable> Feeders<C> {
    /// Room for this many updaters, which are fed in at most this many threads. All its memory is taken here.
    pub fn new(alloc: Global, most: u32, threads: u32) -> Result<Feeders<C>, OutOfMemory>
        requires threads { 0 < threads }
        ensures { IfOk result (λ feeders. feeders.most ≡ most) }
    {
        Ok(Feeders {
            feeders: Vec::with_capacity(alloc, most as usize)?,
            most,
            threads,
        })
    }

    /// In how many threads updaters are fed at most.
    pub fn threads(&self) -> u32
        ensures { 0 < result }
    {
        self.threads
    }

    /// Feeds a window to from 1 to 64 updaters in threads: to each its block. Meanwhile the heart propagates, and an
    /// updater that is busy for long; or each does when it is busy, and after each item if it is eager.
    pub fn feed_window<R: Threads + Wait + Sync>(
        &mut self,
        rt: &R,
        heart: &mut Heart<C>,
        updaters: &mut Vec<Updater<C>>,
        window: &Window,
        kind: Kind,
        by: Propagation,
    ) -> Result<(), OutOfMemory>
    where
        C: Send,
        C::Told: Send,
        requires most { length updaters.old.items ≤ most_updaters }
        requires places { length updaters.old.items ≤ self.old.most }
        requires room { HaveRoom window.now.lines updaters.old.items }
        ensures taken { OnOk result (TakeShares C.keeps_of C.hint_of kind (window.now.lines ∷ []) updaters.old.items updaters.new.items) }
        ensures fronts { TakeFronts C.keeps_of C.hint_of kind window.now.lines updaters.old.items updaters.new.items }
        ensures heart { HeartGoesOn heart.old heart.new }
        ensures quiet { by ≢ Propagation.ByHeart → heart.new ≡ heart.old }
        ensures cause { OnErr result (IsTrue C.TAKES_MEMORY) }
        ensures stays { self.new ≡ self.old }
    {
        lend(updaters, &mut self.feeders);
        let fed = feed_by(rt, heart, &mut self.feeders, window, kind, by, self.threads);
        give_back(&mut self.feeders, updaters);
        fed
    }
}

// Feeds a window to its feeders in threads, at most this many, and propagates as `Feeders::feed_window` says.
fn feed_by<C: Composable + Send, R: Threads + Wait + Sync>(
    rt: &R,
    heart: &mut Heart<C>,
    feeders: &mut Vec<Feeder<C>>,
    window: &Window,
    kind: Kind,
    by: Propagation,
    threads: u32,
) -> Result<(), OutOfMemory>
where
    C::Told: Send,
    requires room { HaveRoom window.now.lines (map (λ f. f.updater) feeders.old.items) }
    requires most { length feeders.old.items ≤ most_updaters }
    requires threads { 0 < threads }
    ensures heart { HeartGoesOn heart.old heart.new }
    ensures quiet { by ≢ Propagation.ByHeart → heart.new ≡ heart.old }
    ensures cause { OnErr result (IsTrue C.TAKES_MEMORY) }
    ensures places { vec_capacity feeders.new ≡ vec_capacity feeders.old }
    ensures taken { OnOk result (TakeBlocks C.keeps_of C.hint_of kind window.now.lines (map (λ f. f.updater) feeders.old.items) (map (λ f. f.updater) feeders.new.items)) }
    ensures fronts { TakeFronts C.keeps_of C.hint_of kind window.now.lines (map (λ f. f.updater) feeders.old.items) (map (λ f. f.updater) feeders.new.items) }
{
    if !by.is_by_heart() {
        return feed_all(rt, feeders, window, kind, by, threads);
    }
    let done = AtomicBool::new(false);
    let (propagated, fed) = run_beside(
        rt,
        heart,
        &done,
        &mut ||
            requires threads { 0 < threads }
            requires most { length feeders.now.items ≤ most_updaters }
            requires room { HaveRoom window.now.lines (map (λ f. f.updater) feeders.now.items) }
            ensures taken { OnOk result (TakeBlocks C.keeps_of C.hint_of kind window.entry.now.lines (map (λ f. f.updater) feeders.entry.now.items) (map (λ f. f.updater) feeders.exit.now.items)) }
            ensures fronts { TakeFronts C.keeps_of C.hint_of kind window.entry.now.lines (map (λ f. f.updater) feeders.entry.now.items) (map (λ f. f.updater) feeders.exit.now.items) }
            ensures cause { OnErr result (IsTrue C.TAKES_MEMORY) }
            ensures places { vec_capacity feeders.exit.now ≡ vec_capacity feeders.entry.now }
        {
            let fed = feed_all(rt, feeders, window, kind, by, threads);
            done.store(true, Ordering::SeqCst);
            fed
        },
    );
    propagated?;
    fed
}

// Feeds a window to its feeders in threads, at most this many.
fn feed_all<C: Composable + Send, R: Threads + Wait + Sync>(
    rt: &R,
    feeders: &mut Vec<Feeder<C>>,
    window: &Window,
    kind: Kind,
    by: Propagation,
    threads: u32,
) -> Result<(), OutOfMemory>
where
    C::Told: Send,
    requires threads { 0 < threads }
    requires most { length feeders.old.items ≤ most_updaters }
    requires room { HaveRoom window.now.lines (map (λ f. f.updater) feeders.old.items) }
    ensures taken { OnOk result (TakeBlocks C.keeps_of C.hint_of kind window.now.lines (map (λ f. f.updater) feeders.old.items) (map (λ f. f.updater) feeders.new.items)) }
    ensures fronts { TakeFronts C.keeps_of C.hint_of kind window.now.lines (map (λ f. f.updater) feeders.old.items) (map (λ f. f.updater) feeders.new.items) }
    ensures cause { OnErr result (IsTrue C.TAKES_MEMORY) }
    ensures places { vec_capacity feeders.new ≡ vec_capacity feeders.old }
{
    feed_each(rt, feeders.as_mut_slice(), window, kind, by, threads)
}

// The last element comes first.
fn back_to_front<T>(elements: &mut Vec<T>)
    ensures reversed { elements.new.items ≡ reverse elements.old.items }
    ensures capacity { vec_capacity elements.new ≡ vec_capacity elements.old }
{
    elements.as_mut_slice().reverse();
}

// Moves updaters to feeders, in order.
fn lend<C: Composable>(updaters: &mut Vec<Updater<C>>, feeders: &mut Vec<Feeder<C>>)
    requires none { feeders.old.items ≡ [] }
    requires room { length updaters.old.items ≤ vec_capacity feeders.old }
    ensures moved { map (λ f. f.updater) feeders.new.items ≡ updaters.old.items }
    ensures left { updaters.new.items ≡ [] }
    ensures places { vec_capacity feeders.new ≡ vec_capacity feeders.old }
    ensures capacity { vec_capacity updaters.new ≡ vec_capacity updaters.old }
{
    back_to_front(updaters);
    'lend: while let Some(updater) = updaters.pop() {
        feeders.push_reserved(Feeder::new(updater));
    }
}

// Moves the updaters of feeders back, in order.
fn give_back<C: Composable>(feeders: &mut Vec<Feeder<C>>, updaters: &mut Vec<Updater<C>>)
    requires none { updaters.old.items ≡ [] }
    requires room { length feeders.old.items ≤ vec_capacity updaters.old }
    ensures moved { updaters.new.items ≡ map (λ f. f.updater) feeders.old.items }
    ensures left { feeders.new.items ≡ [] }
    ensures places { vec_capacity feeders.new ≡ vec_capacity feeders.old }
{
    back_to_front(feeders);
    'back: while let Some(feeder) = feeders.pop() {
        updaters.push_reserved(feeder.updater);
    }
}

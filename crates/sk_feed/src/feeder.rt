//! An updater on its way through a window, and the feeding of all in threads.
ghost use Rattle.std.specs.Prelude.{◌≡◌, ℕ, ◌+◌, ◌-◌, ◌<◌, ◌≤◌, length, map, slice_index_or, slice_range, OnOk, OnErr, IfOk, IsOk, IsErr, IsTrue};
ghost use Rattle.sk_hub.specs.Updaters.{kept_of};
ghost use Rattle.sk_fill.specs.Windows.{items_in};
ghost use Rattle.sk_hub.specs.Calls.{KeepsNone, Takes};
ghost use Rattle.sk_fill.specs.Blocks.{block_of, blocks_of};
ghost use Rattle.sk_feed.specs.Rounds.{HaveRoom, TakesFront, TakeBlocks, TakeFronts};
ghost use Rattle.sk_feed.specs.Shares.{share};
ghost use Rattle.sk_model.specs.Limits.{most_updaters, most_kept};

use crate::block_items::BlockItems;
use crate::feed::{feed_block, help_once};
use crate::propagation::Propagation;
use crossbeam_utils::Backoff;
use sk_compose::Composable;
use sk_fill::{Block, Window};
use sk_hub::Updater;
use sk_model::OutOfMemory;
use sk_read::Kind;
use std::sync::Wait;
use std::thread;
use std::thread::Threads;

// An updater, and the first place of its block that it did not take.
#[derive(Drop)]
pub(crate) struct Feeder<C: Composable> {
    pub(crate) updater: Updater<C>,
    place: Result<u32, OutOfMemory>,
}

impl<C: Composable> Feeder<C> {
    pub(crate) fn new(updater: Updater<C>) -> Feeder<C>
        ensures { result.updater ≡ updater }
    {
        Feeder {
            updater,
            place: Ok(0),
        }
    }

    // Feeds block i of n.
    fn feed<R: Wait>(
        &mut self,
        rt: &R,
        window: &Window,
        kind: Kind,
        i: usize,
        n: usize,
        by: Propagation,
    )
        requires few { n ≤ most_updaters }
        requires within { i < n }
        requires room { length (kept_of self.old.updater) + length (block_of window.now.lines i n) ≤ most_kept }
        ensures taken { OnOk self.new.place (Takes C.keeps_of C.hint_of self.old.updater (items_in kind (block_of window.now.lines i n)) self.new.updater) }
        ensures front { TakesFront C.keeps_of C.hint_of kind (block_of window.now.lines i n) self.old.updater self.new.updater }
        ensures cause { OnErr self.new.place (IsTrue C.TAKES_MEMORY) }
    {
        let block = Block::of(window.len(), i as u32, n as u32);
        self.place = feed_whole(rt, &mut self.updater, window, kind, block, by);
    }
}

// Feeds block i of n of each window, in order, and returns the place after the last.
pub(crate) fn feed_blocks<C: Composable, R: Wait>(
    rt: &R,
    u: &mut Updater<C>,
    windows: &[Window],
    kind: Kind,
    i: usize,
    n: usize,
    by: Propagation,
) -> Result<u32, OutOfMemory>
    requires few { n ≤ most_updaters }
    requires within { i < n }
    requires room { length (kept_of u.old) + length (blocks_of (map (λ w. w.lines) windows.now) i n) ≤ most_kept }
    ensures taken { OnOk result (Takes C.keeps_of C.hint_of u.old (share kind (map (λ w. w.lines) windows.now) n i) u.new) }
    ensures cause { OnErr result (IsTrue C.TAKES_MEMORY) }
{
    let mut place = 0;
    'window: for at in 0..windows.len() {
        let window = &windows[at];
        let block = Block::of(window.len(), i as u32, n as u32);
        place = feed_whole(rt, u, window, kind, block, by)?;
    }
    Ok(place)
}

// Feeds a block, by items if the updater helps after each, else by groups of lines. When the updater is busy it
// propagates: if the heart does, only after it waited long.
fn feed_whole<C: Composable, R: Wait>(
    rt: &R,
    u: &mut Updater<C>,
    window: &Window,
    kind: Kind,
    block: Block,
    by: Propagation,
) -> Result<u32, OutOfMemory>
    requires order { block.from ≤ block.to }
    requires within { block.to ≤ length window.now.lines }
    requires room { length (kept_of u.old) + (block.to - block.from) ≤ most_kept }
    ensures place { IfOk result (λ place. (block.from ≤ place) × (place ≤ block.to)) }
    ensures taken { IfOk result (λ place. Takes C.keeps_of C.hint_of u.old (items_in kind (slice_range window.now.lines block.from place)) u.new) }
    ensures all { IfOk result (λ place. place ≡ block.to) }
    ensures refused { OnErr result ((place : ℕ) × (block.from ≤ place) × (place ≤ block.to)
        × Takes C.keeps_of C.hint_of u.old (items_in kind (slice_range window.now.lines block.from place)) u.new) }
    ensures cause { OnErr result (IsTrue C.TAKES_MEMORY) }
{
    if by.helps() {
        return feed_block(rt, u, window, block.from, block.to, kind, true);
    }
    let backoff = Backoff::new();
    let mut items = BlockItems::of(window, block, kind);
    'again: for _ in rt.forever() {
        if items.feed(u) {
            return Ok(block.to);
        }
        wait_or_help(rt, u, &backoff, by)?;
    }
    unreachable!()
}

// Waits for the heart, if that propagates. Else, and after some such calls, the updater propagates once itself; if
// another seat does, that may have served it.
fn wait_or_help<C: Composable, R: Wait>(
    rt: &R,
    u: &mut Updater<C>,
    backoff: &Backoff,
    by: Propagation,
) -> Result<(), OutOfMemory>
    ensures none { KeepsNone u.old u.new }
    ensures cause { OnErr result (IsTrue C.TAKES_MEMORY) }
{
    if by.is_by_heart() && !backoff.is_completed() {
        backoff.snooze();
        return Ok(());
    }
    if help_once(rt, u)? || backoff.is_completed() {
        backoff.reset();
    } else {
        backoff.snooze();
    }
    Ok(())
}

// Feeds a window to its feeders in threads, at most this many.
pub(crate) fn feed_each<C: Composable + Send, R: Threads + Wait + Sync>(
    rt: &R,
    feeders: &mut [Feeder<C>],
    window: &Window,
    kind: Kind,
    by: Propagation,
    threads: u32,
) -> Result<(), OutOfMemory>
where
    C::Told: Send,
    requires threads { 0 < threads }
    requires most { length feeders.old ≤ most_updaters }
    requires room { HaveRoom window.now.lines (map (λ f. f.updater) feeders.old) }
    ensures taken { OnOk result (TakeBlocks C.keeps_of C.hint_of kind window.now.lines (map (λ f. f.updater) feeders.old) (map (λ f. f.updater) feeders.new)) }
    ensures fronts { TakeFronts C.keeps_of C.hint_of kind window.now.lines (map (λ f. f.updater) feeders.old) (map (λ f. f.updater) feeders.new) }
    ensures cause { OnErr result (IsTrue C.TAKES_MEMORY) }
{
    let n = feeders.len();
    thread::for_each_mut(
        rt,
        feeders,
        threads as usize,
        &|i, feeder| feeder.feed(rt, window, kind, i, n, by),
    );
    outcome(feeders)
}

// Whether memory was found for the last block of each.
fn outcome<C: Composable>(feeders: &[Feeder<C>]) -> Result<(), OutOfMemory>
    ensures all { OnOk result ((i : ℕ) (d : _) → i < length feeders.now → IsOk (slice_index_or feeders.now i d).place) }
    ensures some { OnErr result ((i : ℕ) × (i < length feeders.now) × ((d : _) → IsErr (slice_index_or feeders.now i d).place)) }
{
    'feeder: for i in 0..feeders.len() {
        let _place = feeders[i].place?;
    }
    Ok(())
}

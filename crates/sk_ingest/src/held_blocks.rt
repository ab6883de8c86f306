//! What a window holds of units, fed to the updaters of a hub: to each the items of its block.
ghost use Rattle.std.specs.Prelude.{◌≡◌, ◌<◌, ◌≤◌, ◌+◌, ◌&&◌, nat_lt, ℕ, List, [], length, take, slice_index_or, OnOk};
ghost use Rattle.std.specs.List.{filter};
ghost use Rattle.sk_model.specs.Limits.{most_kept, most_updaters};
ghost use Rattle.sk_model.specs.Width.{AreItems};
ghost use Rattle.sk_hub.specs.Updaters.{UpdaterState, kept_of};
ghost use Rattle.sk_hub.specs.Calls.{Takes};
ghost use Rattle.sk_fill.specs.Windows.{most_lines};
ghost use Rattle.sk_feed.specs.Rounds.{HaveRoom};
ghost use Rattle.sk_feed.specs.Hubs.{hub_of, IsHub, FeedsWindow, HeartMayGoOn};
ghost use Rattle.sk_ingest.specs.ItemWindows.{AreHeld, items_held, held_block, Holds, TakeHeld};

use crate::item_window::ItemWindow;
use crate::one_by_one::feed_items;
use sk_compose::Composable;
use sk_fill::Block;
use sk_hub::{Heart, Opened, Updater};
use sk_lines::GROUP;
use sk_model::OutOfMemory;
use sk_read::Intake;
use std::sync::Wait;

// Feeds a window that is full, and takes its units out.
#[inline(never)]
pub(crate) fn pass_held<C: Composable, R: Wait>(
    rt: &R,
    plan: &Intake,
    window: &mut ItemWindow,
    opened: &mut Opened<C>,
) -> Result<(), OutOfMemory>
    requires hub { IsHub (hub_of opened.old) }
    requires room { (units : List (List ℕ)) × Holds plan.now.kind units window.old × HaveRoom units opened.old.updaters.items }
    ensures fed { OnOk result ((units : List (List ℕ)) → Holds plan.now.kind units window.old
        → FeedsWindow plan.now.propagator C.keeps_of C.hint_of plan.now.kind units (hub_of opened.old) (hub_of opened.new)) }
    ensures cleared { OnOk result (Holds plan.now.kind [] window.new) }
    ensures most { window.new.most ≡ window.old.most }
{
    feed_held_window(rt, opened, window, plan)?;
    window.clear();
    Ok(())
}

// Feeds a window to all updaters, one after another: to each the items of its block.
pub(crate) fn feed_held_window<C: Composable, R: Wait>(
    rt: &R,
    opened: &mut Opened<C>,
    window: &ItemWindow,
    plan: &Intake,
) -> Result<(), OutOfMemory>
    requires hub { IsHub (hub_of opened.old) }
    requires room { (units : List (List ℕ)) × Holds plan.now.kind units window.now × HaveRoom units opened.old.updaters.items }
    ensures fed { OnOk result ((units : List (List ℕ)) → Holds plan.now.kind units window.now
        → FeedsWindow plan.now.propagator C.keeps_of C.hint_of plan.now.kind units (hub_of opened.old) (hub_of opened.new)) }
{
    // It shows the proof how many updaters a hub has at most.
    let _admitted = opened.heart.admitted();
    let updaters = &mut opened.updaters;
    feed_held_blocks(rt, &mut opened.heart, updaters, window.items(), plan)
}

// Feeds what is held to updaters, one after another: to each the items of its block.
fn feed_held_blocks<C: Composable, R: Wait>(
    rt: &R,
    heart: &mut Heart<C>,
    updaters: &mut Vec<Updater<C>>,
    held: &[u64],
    plan: &Intake,
) -> Result<(), OutOfMemory>
    requires most { length updaters.old.items ≤ most_updaters }
    requires few { length held.now ≤ most_lines }
    requires items { AreHeld held.now }
    requires room { (i : ℕ) (d : UpdaterState) → i < length updaters.old.items
        → length (kept_of (slice_index_or updaters.old.items i d)) + length (held_block held.now i (length updaters.old.items)) ≤ most_kept }
    ensures taken { OnOk result (TakeHeld C.keeps_of C.hint_of held.now updaters.old.items updaters.new.items) }
    ensures heart { HeartMayGoOn plan.now.propagator heart.old heart.new }
{
    let n = updaters.len();
    'updater: for i in 0..n {
        let block = Block::of(held.len() as u32, i as u32, n as u32);
        let updater = &mut updaters[i];
        let part = &held[block.from as usize..block.to as usize];
        feed_held(rt, heart, updater, part, plan)?;
    }
    Ok(())
}

// Feeds the items among what is held, in order, some at a time.
fn feed_held<C: Composable, R: Wait>(
    rt: &R,
    heart: &mut Heart<C>,
    u: &mut Updater<C>,
    held: &[u64],
    plan: &Intake,
) -> Result<(), OutOfMemory>
    requires items { AreHeld held.now }
    requires room { length (kept_of u.old) + length held.now ≤ most_kept }
    ensures taken { OnOk result (Takes C.keeps_of C.hint_of u.old (items_held held.now) u.new) }
    ensures heart { HeartMayGoOn plan.now.propagator heart.old heart.new }
{
    let mut at = 0;
    'group: while at < held.len() {
        let count = GROUP.min(held.len() - at);
        feed_group(rt, heart, u, &held[at..at + count], plan)?;
        at += count;
    }
    Ok(())
}

// The same of few. Those that the updater's hint filters are left out without a branch on each.
fn feed_group<C: Composable, R: Wait>(
    rt: &R,
    heart: &mut Heart<C>,
    u: &mut Updater<C>,
    held: &[u64],
    plan: &Intake,
) -> Result<(), OutOfMemory>
    requires few { length held.now ≤ GROUP }
    requires items { AreHeld held.now }
    requires room { length (kept_of u.old) + length held.now ≤ most_kept }
    ensures taken { OnOk result (Takes C.keeps_of C.hint_of u.old (items_held held.now) u.new) }
    ensures heart { HeartMayGoOn plan.now.propagator heart.old heart.new }
{
    let mut kept = [0; GROUP];
    let count = keep_items::<C>(u.hint(), held, &mut kept);
    feed_items(rt, heart, u, &kept[..count], plan)
}

// Writes the items among what is held that a hint keeps to the start of `kept`, and returns how many they are.
#[inline(always)]
fn keep_items<C: Composable>(hint: u64, held: &[u64], kept: &mut [u64; GROUP]) -> usize
    requires few { length held.now ≤ GROUP }
    requires items { AreHeld held.now }
    ensures few { result ≤ length held.now }
    ensures kept { take result kept.new ≡ filter (C.keeps_of hint) (items_held held.now) }
    ensures items { AreItems (take result kept.new) }
{
    let mut count = 0;
    'item: for at in 0..held.len() {
        let item = held[at];
        kept[count] = item;
        count += usize::from(is_kept::<C>(hint, item));
    }
    count
}

// Whether it is an item that a hint keeps.
#[inline(always)]
fn is_kept<C: Composable>(hint: u64, item: u64) -> bool
    ensures { result ≡ (nat_lt 0 item && C.keeps_of hint item) }
{
    item > 0 && C::keeps(hint, item)
}

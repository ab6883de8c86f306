//! Items that are fed to an updater, which propagates itself when it is busy.
ghost use Rattle.std.specs.Prelude.{◌≡◌, ◌+◌, ◌<◌, ◌≤◌, ◌∷◌, [], length, take, false};
ghost use Rattle.std.specs.Bool.{OnTrue, OnFalse};
ghost use Rattle.sk_gate.specs.Views.{mine_of};
ghost use Rattle.sk_hub.specs.Calls.{KeepsNone, Takes};
ghost use Rattle.sk_hub.specs.Updaters.{kept_of};
ghost use Rattle.sk_model.specs.Limits.{most_kept};
ghost use Rattle.sk_model.specs.Width.{IsItem, AreItems};

use crossbeam_utils::Backoff;
use sk_compose::Composable;
use sk_hub::{Update, Updater};
use std::sync::Wait;

/// Feeds items, in order. Each is kept, unless no later reply would change by it.
pub fn feed_all<C: Composable, R: Wait>(rt: &R, updater: &mut Updater<C>, items: &[u64])
    requires items { AreItems items.now }
    requires room { length (kept_of updater.old) + length items.now ≤ most_kept }
    ensures { Takes C.keeps_of C.hint_of updater.old items.now updater.new }
{
    'item: for item in items {
        feed_item(rt, updater, *item);
    }
}

/// Feeds items, in order, for as long as none has to wait, and returns how many were taken. If these are not all, the fill
/// buffer is full, and the batch before it is not published yet.
pub fn feed_some<C: Composable>(updater: &mut Updater<C>, items: &[u64]) -> usize
    requires items { AreItems items.now }
    requires room { length (kept_of updater.old) + length items.now ≤ most_kept }
    ensures within { result ≤ length items.now }
    ensures taken { Takes C.keeps_of C.hint_of updater.old (take result items.now) updater.new }
    ensures waits { result < length items.now → (length updater.new.fill ≡ updater.new.size) × ((mine_of updater.new.view).ready ≡ false) }
{
    updater.update_each(items)
}

/// Offers an item until it is taken. In between the updater propagates, and waits a moment.
pub fn feed_item<C: Composable, R: Wait>(rt: &R, updater: &mut Updater<C>, item: u64)
    requires item { IsItem item }
    requires room { length (kept_of updater.old) < most_kept }
    ensures { Takes C.keeps_of C.hint_of updater.old (item ∷ []) updater.new }
{
    let backoff = Backoff::new();
    'again: for _ in rt.forever() {
        if offer(updater, item) {
            return;
        }
        help(rt, updater);
        backoff.snooze();
    }
    unreachable!()
}

// Offers an item once, and returns whether it was taken.
fn offer<C: Composable>(updater: &mut Updater<C>, item: u64) -> bool
    requires item { IsItem item }
    requires room { length (kept_of updater.old) < most_kept }
    ensures taken { OnTrue result (Takes C.keeps_of C.hint_of updater.old (item ∷ []) updater.new) }
    ensures busy { OnFalse result (KeepsNone updater.old updater.new) }
{
    // It shows the proof which list the hint is of.
    let _hint = updater.hint();
    match updater.update(item) {
        Update::Busy => false,
        Update::Filtered | Update::Kept | Update::Handed => true,
    }
}

// Propagates once, unless another seat does or memory runs out.
fn help<C: Composable, R: Wait>(rt: &R, updater: &mut Updater<C>)
    ensures { KeepsNone updater.old updater.new }
{
    updater.help(rt);
}

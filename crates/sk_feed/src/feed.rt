//! How the items of a window's lines are fed to an updater.
ghost use Rattle.std.specs.Prelude.{◌≡◌, ◌≢◌, ◌⊎◌, ℕ, ◌+◌, ◌-◌, ◌<◌, ◌≤◌, [], ◌∷◌, length, true, false, Ok, OnOk, OnErr, IfOk, IsTrue};
ghost use Rattle.sk_hub.specs.Updaters.{kept_of};
ghost use Rattle.sk_hub.specs.Calls.{KeepsNone, Takes, IsBusyWith};
ghost use Rattle.sk_feed.specs.Calls.{filter_of, IsFed, FeedsLines, RunsOutHelping, Filters, Accepts, InsistsAfter, HelpsIfEager, ServesAfter, ServesAll, FindsElsewhere};
ghost use Rattle.sk_model.specs.Width.{IsItem};
ghost use Rattle.sk_model.specs.Limits.{most_kept};

use crossbeam_utils::Backoff;
use sk_compose::Composable;
use sk_fill::Window;
use sk_hub::{Help, Update, Updater};
use sk_model::OutOfMemory;
use sk_read::Kind;
use std::sync::Wait;

/// Feeds the items of the lines from one place up to another, in order, and returns the first place that was
/// not taken. With `help` the updater propagates when it is busy or eager, and all are taken; it then waits
/// while another seat propagates.
pub fn feed_block<C: Composable, R: Wait>(
    rt: &R,
    u: &mut Updater<C>,
    w: &Window,
    from: u32,
    to: u32,
    kind: Kind,
    help: bool,
) -> Result<u32, OutOfMemory>
    requires order { from ≤ to }
    requires within { to ≤ length w.now.lines }
    requires room { length (kept_of u.old) + (to - from) ≤ most_kept }
    ensures fed { IfOk result (FeedsLines (filter_of C.keeps_of C.early_of C.hint_of) help kind w.now.lines from to u.old u.new) }
    ensures refused { OnErr result (RunsOutHelping (filter_of C.keeps_of C.early_of C.hint_of) C.TAKES_MEMORY help kind w.now.lines from to u.old u.new) }
{
    let mut lines = w.lines_from(from);
    'line: for place in from..to {
        if let Some(item) = lines.next_item(kind) {
            if !feed_item(rt, u, item, help)? {
                return Ok(place);
            }
        }
    }
    Ok(to)
}

// Feeds an item. Without `help` it is offered once, and may not be taken.
#[inline(always)]
fn feed_item<C: Composable, R: Wait>(
    rt: &R,
    u: &mut Updater<C>,
    item: u64,
    help: bool,
) -> Result<bool, OutOfMemory>
    requires item { IsItem item }
    requires room { length (kept_of u.old) < most_kept }
    ensures taken { result ≡ Ok true → Takes C.keeps_of C.hint_of u.old (item ∷ []) u.new }
    ensures fed { result ≡ Ok true → IsFed (filter_of C.keeps_of C.early_of C.hint_of) help u.old item u.new }
    ensures alone { result ≡ Ok false → help ≡ false }
    ensures busy { result ≡ Ok false → IsBusyWith C.keeps_of u.old item u.new }
    ensures none { result ≡ Ok false → KeepsNone u.old u.new }
    ensures refused { OnErr result (KeepsNone u.old u.new ⊎ Takes C.keeps_of C.hint_of u.old (item ∷ []) u.new) }
    ensures helping { OnErr result (IsTrue help) }
    ensures cause { OnErr result (IsTrue C.TAKES_MEMORY) }
{
    if help {
        insist(rt, u, item)?;
        return Ok(true);
    }
    match offer(u, item) {
        Update::Busy => Ok(false),
        Update::Filtered | Update::Kept | Update::Handed => Ok(true),
    }
}

/// Offers an item until it is taken, and propagates between the offers. An eager updater propagates after it, too.
/// On out of memory the item is taken or not, as the clauses say.
pub fn insist<C: Composable, R: Wait>(
    rt: &R,
    u: &mut Updater<C>,
    item: u64,
) -> Result<(), OutOfMemory>
    requires item { IsItem item }
    requires room { length (kept_of u.old) < most_kept }
    ensures taken { OnOk result (Takes C.keeps_of C.hint_of u.old (item ∷ []) u.new) }
    ensures fed { OnOk result ((times : ℕ) × InsistsAfter (filter_of C.keeps_of C.early_of C.hint_of) times u.old item u.new) }
    ensures refused { OnErr result (KeepsNone u.old u.new ⊎ Takes C.keeps_of C.hint_of u.old (item ∷ []) u.new) }
    ensures cause { OnErr result (IsTrue C.TAKES_MEMORY) }
{
    'again: for _ in rt.forever() {
        match offer(u, item) {
            Update::Busy => help_until_served(rt, u)?,
            Update::Filtered => return Ok(()),
            Update::Kept | Update::Handed => return help_if_eager(rt, u),
        }
    }
    unreachable!()
}

/// Offers an item once: the updater filters it, keeps it, hands it over with others, or is busy.
#[inline(always)]
pub fn offer<C: Composable>(u: &mut Updater<C>, item: u64) -> Update
    requires item { IsItem item }
    requires room { length (kept_of u.old) < most_kept }
    ensures taken { result ≢ Update.Busy → Takes C.keeps_of C.hint_of u.old (item ∷ []) u.new }
    ensures none { result ≡ Update.Busy → KeepsNone u.old u.new }
    ensures busy { result ≡ Update.Busy → IsBusyWith C.keeps_of u.old item u.new }
    ensures filtered { result ≡ Update.Filtered → Filters (filter_of C.keeps_of C.early_of C.hint_of) u.old item u.new }
    ensures accepted { (result ≡ Update.Kept) ⊎ (result ≡ Update.Handed) → Accepts (filter_of C.keeps_of C.early_of C.hint_of) u.old item u.new }
{
    // It shows the proof which list the hint is of.
    let _hint = u.hint();
    u.update(item)
}

// Propagates once, if the updater is eager and no other seat propagates.
fn help_if_eager<C: Composable, R: Wait>(rt: &R, u: &mut Updater<C>) -> Result<(), OutOfMemory>
    ensures none { KeepsNone u.old u.new }
    ensures helped { OnOk result (HelpsIfEager (filter_of C.keeps_of C.early_of C.hint_of) u.old u.new) }
    ensures cause { OnErr result (IsTrue C.TAKES_MEMORY) }
{
    if u.is_eager() {
        help_once(rt, u)?;
    }
    Ok(())
}

// Propagates, and waits while another seat does.
pub(crate) fn help_until_served<C: Composable, R: Wait>(
    rt: &R,
    u: &mut Updater<C>,
) -> Result<(), OutOfMemory>
    ensures none { KeepsNone u.old u.new }
    ensures served { OnOk result ((times : ℕ) × ServesAfter times u.old u.new) }
    ensures cause { OnErr result (IsTrue C.TAKES_MEMORY) }
{
    let backoff = Backoff::new();
    'help: for _ in rt.forever() {
        if help_once(rt, u)? {
            return Ok(());
        }
        backoff.snooze();
    }
    unreachable!()
}

// Propagates once, and returns whether no other seat did.
pub(crate) fn help_once<C: Composable, R: Wait>(
    rt: &R,
    u: &mut Updater<C>,
) -> Result<bool, OutOfMemory>
    ensures none { KeepsNone u.old u.new }
    ensures served { result ≡ Ok true → ServesAll u.old u.new }
    ensures elsewhere { result ≡ Ok false → FindsElsewhere u.old u.new }
    ensures cause { OnErr result (IsTrue C.TAKES_MEMORY) }
{
    match u.help(rt) {
        Help::Served(_) => Ok(true),
        Help::Elsewhere(_) => Ok(false),
        Help::OutOfMemory => Err(OutOfMemory),
    }
}

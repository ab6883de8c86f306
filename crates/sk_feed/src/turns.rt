//! A window that is fed in one thread, to one updater after another.
ghost use Rattle.std.specs.Prelude.{◌≡◌, ◌≢◌, ◌∷◌, ◌+◌, ◌-◌, ◌≤◌, [], length, slice_range, true, OnOk, OnErr, IsTrue};
ghost use Rattle.sk_hub.specs.Updaters.{kept_of};
ghost use Rattle.sk_fill.specs.Windows.{items_in};
ghost use Rattle.sk_hub.specs.Calls.{Takes};
ghost use Rattle.sk_feed.specs.Rounds.{HaveRoom};
ghost use Rattle.sk_feed.specs.Calls.{filter_of, IsFedEach};
ghost use Rattle.sk_feed.specs.Shares.{TakeShares, AreFedEach};
ghost use Rattle.sk_feed.specs.Hubs.{HeartGoesOn};
ghost use Rattle.sk_model.specs.Limits.{most_updaters, most_kept};

use crate::block_items::BlockItems;
use crate::feed::feed_block;
use crate::propagation::{Propagation, propagate};
use sk_compose::Composable;
use sk_fill::{Block, Window};
use sk_hub::{Heart, Updater};
use sk_model::OutOfMemory;
use sk_read::Kind;
use std::sync::Wait;

/// Feeds a window to from 1 to 64 updaters, one after another: to each its block. An error comes only when out of
/// memory, if the sketch takes some.
pub fn feed_in_turn<C: Composable, R: Wait>(
    rt: &R,
    heart: &mut Heart<C>,
    updaters: &mut Vec<Updater<C>>,
    window: &Window,
    kind: Kind,
    by: Propagation,
) -> Result<(), OutOfMemory>
    requires most { length updaters.old.items ≤ most_updaters }
    requires room { HaveRoom window.now.lines updaters.old.items }
    ensures taken { OnOk result (TakeShares C.keeps_of C.hint_of kind (window.now.lines ∷ []) updaters.old.items updaters.new.items) }
    ensures each { OnOk result (by ≡ Propagation.AfterEachItem → AreFedEach (filter_of C.keeps_of C.early_of C.hint_of) kind window.now.lines updaters.old.items updaters.new.items) }
    ensures heart { HeartGoesOn heart.old heart.new }
    ensures quiet { by ≢ Propagation.ByHeart → heart.new ≡ heart.old }
    ensures cause { OnErr result (IsTrue C.TAKES_MEMORY) }
{
    let n = updaters.len();
    'updater: for i in 0..n {
        let block = Block::of(window.len(), i as u32, n as u32);
        let updater = &mut updaters[i];
        feed_through(rt, heart, updater, window, kind, block, by)?;
    }
    Ok(())
}

// Feeds a block. Each time the updater is busy one propagates; if the hub may be asked before, an eager one does, too.
fn feed_through<C: Composable, R: Wait>(
    rt: &R,
    heart: &mut Heart<C>,
    u: &mut Updater<C>,
    window: &Window,
    kind: Kind,
    block: Block,
    by: Propagation,
) -> Result<(), OutOfMemory>
    requires order { block.from ≤ block.to }
    requires within { block.to ≤ length window.now.lines }
    requires room { length (kept_of u.old) + (block.to - block.from) ≤ most_kept }
    ensures taken { OnOk result (Takes C.keeps_of C.hint_of u.old (items_in kind (slice_range window.now.lines block.from block.to)) u.new) }
    ensures each { OnOk result (by ≡ Propagation.AfterEachItem → IsFedEach (filter_of C.keeps_of C.early_of C.hint_of) true u.old (items_in kind (slice_range window.now.lines block.from block.to)) u.new) }
    ensures heart { HeartGoesOn heart.old heart.new }
    ensures quiet { by ≢ Propagation.ByHeart → heart.new ≡ heart.old }
    ensures cause { OnErr result (IsTrue C.TAKES_MEMORY) }
{
    if by.helps() {
        let _place = feed_block(rt, u, window, block.from, block.to, kind, true)?;
        return Ok(());
    }
    let mut items = BlockItems::of(window, block, kind);
    'again: for _ in rt.forever() {
        if items.feed(u) {
            return Ok(());
        }
        propagate(rt, heart, u, by)?;
    }
    unreachable!()
}

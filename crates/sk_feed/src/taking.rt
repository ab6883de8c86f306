//! What takes stretches of windows, one after another: an updater, or all updaters of a hub.
ghost use Rattle.std.specs.Prelude.{◌≡◌, ℕ, ◌+◌, ◌<◌, ◌≤◌, Bool, List, [], length, map, OnOk, OnErr, IsTrue};
ghost use Rattle.sk_read.specs.declared.kind.Kind.{Kind as Kinds};
ghost use Rattle.sk_fill.specs.Windows.{all_lines};
ghost use Rattle.sk_feed.specs.Rounds.{HaveRoomFor};
ghost use Rattle.sk_feed.specs.Shares.{TakeShares};
ghost use Rattle.sk_feed.specs.Takings.{TakesOn};
ghost use Rattle.sk_model.specs.Limits.{most_updaters, most_kept};

use crate::feeder::feed_blocks;
use crate::propagation::Propagation;
use sk_compose::Composable;
use sk_fill::Window;
use sk_hub::Updater;
use sk_model::OutOfMemory;
use sk_read::Kind;
use std::sync::Wait;

/// Takes stretches of windows, one after another, as number i of n takers.
pub trait TakesStretches: Drop {
    /// Whether it may run out of memory.
    ghost TAKES_MEMORY: { Bool };

    /// From one state to another number i of n took these windows, in order.
    ghost took: { Kinds → ℕ → ℕ → Self → Self → List (List (List ℕ)) → Type 0 };

    /// No updater of it has kept more than this many items.
    ghost keeps_at_most: { Self → ℕ → Type 0 };

    /// Takes the windows of a stretch after those that it took, and returns whether it continues.
    fn take<R: Wait>(
        &mut self,
        rt: &R,
        windows: &[Window],
        kind: Kind,
        i: usize,
        n: usize,
    ) -> Result<bool, OutOfMemory>
        requires few { n ≤ most_updaters }
        requires within { i < n }
        requires room { (count : ℕ) × keeps_at_most self.old count × (count + length (all_lines (map (λ w. w.lines) windows.now)) ≤ most_kept) }
        ensures took { OnOk result (TakesOn (took kind i n) self.old (map (λ w. w.lines) windows.now) self.new) }
        ensures kept { OnOk result ((count : ℕ) → keeps_at_most self.old count
            → keeps_at_most self.new (count + length (all_lines (map (λ w. w.lines) windows.now)))) }
        ensures cause { OnErr result (IsTrue TAKES_MEMORY) };
}

// An updater takes its block of each window.
impl<C: Composable> TakesStretches for Updater<C> {
    ghost use Rattle.std.specs.Prelude.{◌≤◌, length};
    ghost use Rattle.sk_hub.specs.Updaters.{kept_of};
    ghost use Rattle.sk_hub.specs.Calls.{Takes};
    ghost use Rattle.sk_feed.specs.Shares.{share};

    ghost TAKES_MEMORY = { C.TAKES_MEMORY };

    ghost took = { λ kind i n u v windows. Takes C.keeps_of C.hint_of u (share kind windows n i) v };

    ghost keeps_at_most = { λ u count. length (kept_of u) ≤ count };

    fn take<R: Wait>(
        &mut self,
        rt: &R,
        windows: &[Window],
        kind: Kind,
        i: usize,
        n: usize,
    ) -> Result<bool, OutOfMemory> {
        feed_blocks(rt, self, windows, kind, i, n, Propagation::WhenBusy)?;
        Ok(true)
    }
}

// All updaters of a hub take theirs, one after another, as long as threads would only wait for one another.
impl<C: Composable> TakesStretches for Vec<Updater<C>> {
    ghost use Rattle.std.specs.Prelude.{◌≤◌, [], length};
    ghost use Rattle.sk_feed.specs.Rounds.{HaveFew};
    ghost use Rattle.sk_feed.specs.Shares.{TakeShares};
    ghost use Rattle.sk_model.specs.Limits.{most_updaters};

    ghost TAKES_MEMORY = { C.TAKES_MEMORY };

    ghost took = { λ kind i n us vs windows. TakeShares C.keeps_of C.hint_of kind windows us.items vs.items };

    ghost keeps_at_most = { λ us count. (length us.items ≤ most_updaters) × HaveFew count [] us.items };

    fn take<R: Wait>(
        &mut self,
        rt: &R,
        windows: &[Window],
        kind: Kind,
        _i: usize,
        _n: usize,
    ) -> Result<bool, OutOfMemory> {
        feed_windows_in_turn(rt, self, windows, kind)?;
        Ok(take_turns::<C>())
    }
}

/// Whether updaters are fed one after another: with a sketch by versions most of the work is the merge, by one at a time.
pub fn take_turns<C: Composable>() -> bool {
    C::MERGES_ALONE
}

/// Whether each item that updaters keep is handed over.
pub fn are_eager<C: Composable>(updaters: &[Updater<C>]) -> bool {
    match updaters.first() {
        Some(updater) => updater.is_eager(),
        None => false,
    }
}

// Feeds windows to updaters, one after another: to each its block of each window.
fn feed_windows_in_turn<C: Composable, R: Wait>(
    rt: &R,
    updaters: &mut Vec<Updater<C>>,
    windows: &[Window],
    kind: Kind,
) -> Result<(), OutOfMemory>
    requires most { length updaters.old.items ≤ most_updaters }
    requires room { HaveRoomFor (map (λ w. w.lines) windows.now) updaters.old.items }
    ensures taken { OnOk result (TakeShares C.keeps_of C.hint_of kind (map (λ w. w.lines) windows.now) updaters.old.items updaters.new.items) }
    ensures cause { OnErr result (IsTrue C.TAKES_MEMORY) }
{
    let n = updaters.len();
    'updater: for i in 0..n {
        let updater = &mut updaters[i];
        feed_blocks(rt, updater, windows, kind, i, n, Propagation::WhenBusy)?;
    }
    Ok(())
}

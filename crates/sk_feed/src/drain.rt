//! The end of a run: the heart takes in all updaters.
ghost use Rattle.std.specs.Prelude.{◌≡◌, All, length, OnErr, IfOk, IsTrue};
ghost use Rattle.sk_feed.specs.Drained.{AreNumbered, DrainsAll};
ghost use Rattle.sk_feed.specs.Shares.{HasAllOf};

use sk_compose::Composable;
use sk_hub::{Drain, Heart, Updater};
use sk_model::OutOfMemory;
use std::sync::Wait;

/// Takes in all updaters of a hub, in number order, and returns the word of exactly what they kept.
pub fn drain_all<C: Composable, R: Wait>(
    rt: &R,
    heart: &mut Heart<C>,
    updaters: Vec<Updater<C>>,
) -> Result<u64, OutOfMemory>
    requires table { All (λ u. u.table ≡ heart.old.table) updaters.items }
    requires numbers { AreNumbered updaters.items }
    requires all { length updaters.items ≡ heart.old.updaters }
    ensures drained { IfOk result (λ _. DrainsAll heart.old updaters.items heart.new) }
    ensures seen { IfOk result (λ _. HasAllOf heart.new.view.seen updaters.items) }
    ensures word { IfOk result (λ word. word ≡ C.packed_of heart.old.view.numbers heart.new.view.seen) }
    ensures cause { OnErr result (IsTrue C.TAKES_MEMORY) }
{
    take_in_all(rt, heart, updaters)?;
    // It shows how many updaters the hub has.
    let _admitted = heart.admitted();
    Ok(heart.ask())
}

// Takes in updaters, in number order.
fn take_in_all<C: Composable, R: Wait>(
    rt: &R,
    heart: &mut Heart<C>,
    updaters: Vec<Updater<C>>,
) -> Result<(), OutOfMemory>
    requires table { All (λ u. u.table ≡ heart.old.table) updaters.items }
    requires numbers { AreNumbered updaters.items }
    ensures drained { IfOk result (λ _. DrainsAll heart.old updaters.items heart.new) }
    ensures cause { OnErr result (IsTrue C.TAKES_MEMORY) }
{
    'updater: for updater in updaters {
        match heart.drain(rt, updater) {
            Drain::Drained => {}
            Drain::OutOfMemory(_) => return Err(OutOfMemory),
        }
    }
    Ok(())
}

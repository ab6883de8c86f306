//! The updaters of a hub, settled before it is asked.
ghost use Rattle.std.specs.Prelude.{All, OnOk, OnErr, IsTrue};
ghost use Rattle.std.specs.Bool.{OnTrue};
ghost use Rattle.sk_hub.specs.Calls.{KeepsNone};
ghost use Rattle.sk_feed.specs.Hubs.{HeartGoesOn, HasAllPublished, AreSettled, HandsOverEarly};
ghost use Rattle.sk_feed.specs.Shares.{KeepNone};

use crate::propagation::sweep;
use crossbeam_utils::Backoff;
use sk_compose::Composable;
use sk_hub::{Flush, Heart, Settle, Updater};
use sk_model::OutOfMemory;
use std::sync::Wait;

/// The heart propagates until all that updaters handed over is published. While they are eager they hand over what
/// waits in their fill buffers, too. An error comes only when out of memory, if the sketch takes some.
pub fn settle_all<C: Composable, R: Wait>(
    rt: &R,
    heart: &mut Heart<C>,
    updaters: &mut Vec<Updater<C>>,
) -> Result<(), OutOfMemory>
    ensures none { KeepNone updaters.old.items updaters.new.items }
    ensures settled { OnOk result (AreSettled updaters.new.items) }
    ensures eager { OnOk result (All (HandsOverEarly C.early_of) updaters.new.items) }
    ensures heart { HeartGoesOn heart.old heart.new }
    ensures cause { OnErr result (IsTrue C.TAKES_MEMORY) }
{
    let n = updaters.len();
    'updater: for i in 0..n {
        let updater = &mut updaters[i];
        settle(rt, heart, updater)?;
    }
    Ok(())
}

// The heart propagates until an updater is settled.
fn settle<C: Composable, R: Wait>(
    rt: &R,
    heart: &mut Heart<C>,
    u: &mut Updater<C>,
) -> Result<(), OutOfMemory>
    ensures none { KeepsNone u.old u.new }
    ensures settled { OnOk result (HasAllPublished u.new) }
    ensures eager { OnOk result (HandsOverEarly C.early_of u.new) }
    ensures heart { HeartGoesOn heart.old heart.new }
    ensures cause { OnErr result (IsTrue C.TAKES_MEMORY) }
{
    let backoff = Backoff::new();
    'settle: for _ in rt.forever() {
        if is_settled(u) {
            return Ok(());
        }
        sweep(rt, heart)?;
        backoff.snooze();
    }
    unreachable!()
}

// Whether all that an updater handed over is published. If so and it is eager, it hands over what waits in its fill
// buffer, and is settled only when that is published, too.
fn is_settled<C: Composable>(u: &mut Updater<C>) -> bool
    ensures none { KeepsNone u.old u.new }
    ensures settled { OnTrue result (HasAllPublished u.new) }
    ensures eager { OnTrue result (HandsOverEarly C.early_of u.new) }
{
    match u.settle() {
        Settle::Busy => return false,
        Settle::Settled => {}
    }
    if !u.is_eager() {
        return true;
    }
    match u.flush() {
        Flush::Empty => true,
        Flush::Handed | Flush::Busy => false,
    }
}

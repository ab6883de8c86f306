//! Who propagates what updaters hand over.
ghost use Rattle.std.specs.Prelude.{◌≡◌, ◌≢◌, ℕ, true, false, OnOk, OnErr, IsTrue};
ghost use Rattle.sk_hub.specs.Calls.{KeepsNone};
ghost use Rattle.sk_feed.specs.Calls.{ServesAfter};
ghost use Rattle.sk_feed.specs.Hubs.{HeartGoesOn, TriesToSweep};

use crate::feed::help_until_served;
use sk_compose::Composable;
use sk_hub::{Heart, Sweep, Updater};
use sk_model::OutOfMemory;
use sk_read::Intake;
use std::sync::Wait;

/// Who propagates, and when.
#[derive(Clone, Copy)]
pub enum Propagation {
    /// The heart, when an updater is busy.
    ByHeart,
    /// The updater that is busy.
    WhenBusy,
    /// The updater that is busy, and an eager one after each item: the hub may be asked before it is busy.
    AfterEachItem,
}

impl Propagation {
    /// The way of a plan. An eager updater need not propagate if nobody asks in between.
    pub fn of(plan: &Intake) -> Propagation
        ensures heart { plan.now.propagator ≡ true → result ≡ Propagation.ByHeart }
        ensures quiet { plan.now.propagator ≡ false → result ≢ Propagation.ByHeart }
        ensures each { plan.now.propagator ≡ false → plan.now.interim ≡ true → result ≡ Propagation.AfterEachItem }
        ensures busy { plan.now.propagator ≡ false → plan.now.interim ≡ false → result ≡ Propagation.WhenBusy }
    {
        if plan.propagator {
            Propagation::ByHeart
        } else if plan.interim {
            Propagation::AfterEachItem
        } else {
            Propagation::WhenBusy
        }
    }

    pub(crate) fn is_by_heart(self) -> bool
        ensures yes { result ≡ true → self ≡ Propagation.ByHeart }
        ensures no { result ≡ false → self ≢ Propagation.ByHeart }
    {
        match self {
            Propagation::ByHeart => true,
            Propagation::WhenBusy | Propagation::AfterEachItem => false,
        }
    }

    // Whether an updater helps with each item that it is fed.
    pub(crate) fn helps(self) -> bool
        ensures yes { result ≡ true → self ≡ Propagation.AfterEachItem }
        ensures no { result ≡ false → self ≢ Propagation.AfterEachItem }
    {
        match self {
            Propagation::AfterEachItem => true,
            Propagation::ByHeart | Propagation::WhenBusy => false,
        }
    }
}

/// Propagates when an updater is busy. An error comes only when out of memory, if the sketch takes some.
pub fn propagate<C: Composable, R: Wait>(
    rt: &R,
    heart: &mut Heart<C>,
    u: &mut Updater<C>,
    by: Propagation,
) -> Result<(), OutOfMemory>
    ensures none { KeepsNone u.old u.new }
    ensures heart { HeartGoesOn heart.old heart.new }
    ensures swept { by ≡ Propagation.ByHeart → TriesToSweep heart.old heart.new }
    ensures quiet { by ≢ Propagation.ByHeart → heart.new ≡ heart.old }
    ensures served { OnOk result (by ≢ Propagation.ByHeart → (times : ℕ) × ServesAfter times u.old u.new) }
    ensures cause { OnErr result (IsTrue C.TAKES_MEMORY) }
{
    match by {
        Propagation::ByHeart => sweep(rt, heart),
        Propagation::WhenBusy | Propagation::AfterEachItem => help_until_served(rt, u),
    }
}

// The heart propagates once for all.
pub(crate) fn sweep<C: Composable, R: Wait>(rt: &R, heart: &mut Heart<C>) -> Result<(), OutOfMemory>
    ensures heart { HeartGoesOn heart.old heart.new }
    ensures swept { TriesToSweep heart.old heart.new }
    ensures cause { OnErr result (IsTrue C.TAKES_MEMORY) }
{
    match heart.sweep(rt) {
        Sweep::Swept(_) | Sweep::Elsewhere(_) => Ok(()),
        Sweep::OutOfMemory => Err(OutOfMemory),
    }
}

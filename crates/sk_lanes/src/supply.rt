//! Stretches that were read, and are given to takers in other threads.
ghost use Rattle.std.specs.Prelude.{◌≡◌, ◌+◌, ◌≤◌, ◌∷◌, ◌++◌, [], length, All, OnOk, OnErr, IfSome};
ghost use Rattle.rtrb.specs.Ring.{sent, SameProducer};
ghost use Rattle.sk_model.specs.Limits.{most_kept};
ghost use Rattle.sk_fill.specs.Windows.{all_lines};
ghost use Rattle.sk_feed.specs.Deliveries.{IsNext};
ghost use Rattle.sk_lanes.specs.Rings.{AllEnd, GaveEach, GaveSome};

use crate::pool::Pool;
use rtrb::PushError;
use sk_feed::{Crew, Delivery, Outlet};
use sk_fill::Stretch;
use sk_model::OutOfMemory;
use std::alloc::Global;
use std::marker::Model;
use std::sync::Wait;
use std::thread::yield_now;

/// As many lines are enough for a stretch: it stays in a processor's cache, and is worth waking threads.
pub const ENOUGH: usize = 32_768;

/// The rings through which stretches come for takers, and the stretches themselves, which are read anew once nobody
/// takes from them.
#[derive(Drop)]
pub struct Supply {
    pub(crate) alloc: Global,
    pub(crate) pool: Pool,
    pub(crate) outlets: Vec<Outlet>,
}

impl Model for Supply {
    ghost use Rattle.sk_lanes.specs.Rings.{SupplyState};

    ghost Value = { SupplyState };

    ghost view = { λ s. record { most = s.pool.most; outlets = s.outlets.items } };
}

impl Supply {
    /// Waits for a stretch from which nobody takes. None comes if a taker has ended, or they do not begin.
    pub fn wait_for_one<R: Wait>(&mut self, rt: &R, crew: &Crew) -> Option<Stretch>
        ensures most { IfSome result (λ s. s.most ≡ self.old.most) }
        ensures stays { self.new ≡ self.old }
    {
        self.pool.wait_for_one(rt, crew)
    }

    /// Gives a stretch to all takers. It waits for room in their rings; an error comes only when out of memory. Then those
    /// rings have it that were given it before, and keep it and all that they had; else it is let go.
    pub fn give<R: Wait>(&mut self, rt: &R, stretch: Stretch) -> Result<(), OutOfMemory>
        requires next { AllEnd self.old.outlets stretch.first }
        requires few { stretch.first + length (all_lines stretch.windows) ≤ most_kept }
        requires most { stretch.most ≡ self.old.most }
        ensures gave { OnOk result (GaveEach self.old.outlets self.new.outlets (stretch ∷ [])) }
        ensures refused { OnErr result (GaveSome self.old.outlets self.new.outlets (stretch ∷ [])) }
        ensures ends { OnOk result (AllEnd self.new.outlets (stretch.first + length (all_lines stretch.windows))) }
        ensures most { self.new.most ≡ self.old.most }
    {
        let size = stretch.size();
        let delivery = Delivery::of(self.alloc, stretch)?;
        give_each(rt, &delivery, &mut self.outlets)?;
        self.pool.keep(delivery, size)
    }
}

// Puts a stretch into each ring.
fn give_each<R: Wait>(
    rt: &R,
    delivery: &Delivery,
    outlets: &mut Vec<Outlet>,
) -> Result<(), OutOfMemory>
    requires { All (λ o. IsNext (sent o) delivery.now) outlets.old.items }
    ensures gave { OnOk result (GaveEach outlets.old.items outlets.new.items (delivery.now ∷ [])) }
    ensures refused { OnErr result (GaveSome outlets.old.items outlets.new.items (delivery.now ∷ [])) }
{
    'outlet: for i in 0..outlets.len() {
        let share = delivery.share()?;
        let outlet = &mut outlets[i];
        push_waiting(rt, outlet, share);
    }
    Ok(())
}

// Waits until a ring takes a stretch.
fn push_waiting<R: Wait>(rt: &R, outlet: &mut Outlet, delivery: Delivery)
    requires { IsNext (sent outlet.old) delivery }
    ensures ring { SameProducer outlet.old outlet.new }
    ensures sent { sent outlet.new ≡ sent outlet.old ++ delivery ∷ [] }
{
    let mut delivery = delivery;
    'again: for _ in rt.forever() {
        match outlet.push(delivery) {
            Ok(()) => return,
            Err(PushError::Full(back)) => delivery = back,
        }
        yield_now();
    }
    unreachable!()
}

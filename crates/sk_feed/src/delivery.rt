//! Stretches that are given to feeders in other threads, which share them.
ghost use Rattle.std.specs.Prelude.{◌≡◌, ℕ, List, map, IfOk, IfSome};
ghost use Rattle.sk_fill.specs.Stretches.{StretchState};
ghost use Rattle.sk_feed.specs.Deliveries.{IsNext};

use rtrb::{Consumer, Producer, Protocol};
use sk_fill::{Stretch, Window};
use sk_model::OutOfMemory;
use std::alloc::Global;
use std::marker::Model;
use std::sync::Arc;

/// A stretch that several threads may have.
#[derive(Drop)]
pub struct Delivery {
    stretch: Arc<Stretch, Global>,
}

impl Model for Delivery {
    ghost use Rattle.std.specs.Arc.{arc_value};
    ghost use Rattle.sk_fill.specs.Stretches.{StretchState};

    ghost Value = { StretchState };

    ghost view = { λ d. arc_value d.stretch };
}

impl Delivery {
    /// A stretch to be shared. An error comes only when out of memory.
    pub fn of(alloc: Global, stretch: Stretch) -> Result<Delivery, OutOfMemory>
        ensures { IfOk result (λ d. d ≡ stretch) }
    {
        Ok(Delivery {
            stretch: Arc::new(alloc, stretch)?,
        })
    }

    /// The same, for a further thread. An error comes only when out of memory.
    pub fn share(&self) -> Result<Delivery, OutOfMemory>
        ensures { IfOk result (λ d. d ≡ self.now) }
    {
        Ok(Delivery {
            stretch: Arc::try_clone(&self.stretch)?,
        })
    }

    /// Whether another thread may have it.
    pub fn is_shared(&self) -> bool {
        Arc::strong_count(&self.stretch) > 1
    }

    /// The stretch, if no other thread has it.
    pub fn into_stretch(self) -> Option<Stretch>
        ensures { IfSome result (λ s. s ≡ self) }
    {
        Arc::into_inner(self.stretch)
    }

    /// The windows of the stretch, in order.
    pub fn windows(&self) -> &[Window]
        ensures { map (λ w. w.lines) result.now ≡ self.now.windows }
    {
        self.stretch.windows()
    }
}

/// A ring has stretches in their order: each begins where those before it end.
#[derive(Clone, Copy)]
pub struct InOrder;

impl Protocol<Delivery> for InOrder {
    ghost allows = { IsNext };
}

/// The end of a ring where stretches are given.
pub type Outlet = Producer<Delivery, Global, InOrder>;

/// The end where a feeder takes them.
pub type Inlet = Consumer<Delivery, Global, InOrder>;

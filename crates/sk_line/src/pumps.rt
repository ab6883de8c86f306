//! Who sees to it that what an updater hands over gets published.
ghost use Rattle.std.specs.Prelude.{◌≡◌, ℕ};
ghost use Rattle.sk_line.specs.Pumps.{Footing, IsPumped, after_one};

use sk_compose::Composable;
use sk_hub::Updater;
use std::sync::Wait;

/// Is called before each request of a session, and may propagate.
pub trait Pump<C: Composable> {
    /// How often it was called. The count stops at the largest `u64`.
    ghost pumps: { Self → ℕ };

    /// What no call changes.
    ghost stands_on: { Self → Footing };

    /// Propagates, or does nothing. The updater keeps and hands over nothing by it.
    fn pump<R: Wait>(&mut self, rt: &R, u: &mut Updater<C>)
        ensures updater { IsPumped u.old u.new }
        ensures count { pumps self.new ≡ after_one (pumps self.old) }
        ensures stays { stands_on self.new ≡ stands_on self.old };
}

/// Only counts.
#[derive(Drop)]
pub struct NoPump {
    count: u64,
}

impl NoPump {
    /// Before the first call.
    pub fn new() -> NoPump
        ensures { result.count ≡ 0 }
    {
        NoPump { count: 0 }
    }
}

impl<C: Composable> Pump<C> for NoPump {
    ghost use Rattle.sk_line.specs.Pumps.{no_footing};

    ghost pumps = { λ p. p.count };

    ghost stands_on = { λ _. no_footing };

    fn pump<R: Wait>(&mut self, _rt: &R, _u: &mut Updater<C>) {
        self.count = self.count.saturating_add(1);
    }
}

//! A pump that lets the heart of the hub propagate.
ghost use Rattle.std.specs.Prelude.{◌≡◌};
ghost use Rattle.sk_line.specs.Pumps.{footing_on, IsPumped, TriesToSweep, after_one};

use crate::pumps::Pump;
use sk_compose::Composable;
use sk_hub::{Heart, Updater};
use std::sync::Wait;

/// Lets a heart serve every updater once.
#[derive(Drop)]
pub struct HeartPump<'a, C: Composable> {
    heart: &'a mut Heart<C>,
    count: u64,
}

impl<'a, C: Composable> HeartPump<'a, C> {
    /// Before the first call.
    pub fn new(heart: &'a mut Heart<C>) -> Self
        ensures heart { result.heart.ghost_name ≡ heart.entry.ghost_name }
        ensures now { result.heart.now ≡ heart.old }
        ensures count { result.count ≡ 0 }
    {
        HeartPump { heart, count: 0 }
    }
}

impl<C: Composable> Pump<C> for HeartPump<'_, C> {
    ghost use Rattle.sk_line.specs.Pumps.{footing_on};

    ghost pumps = { λ p. p.count };

    ghost stands_on = { λ p. footing_on p.heart.ghost_name p.heart.now };

    /// Takes the turn for one round, unless another seat has it.
    fn pump<R: Wait>(&mut self, rt: &R, u: &mut Updater<C>)
        ensures updater { IsPumped u.old u.new }
        ensures count { self.new.count ≡ after_one self.old.count }
        ensures stays { footing_on self.new.heart.ghost_name self.new.heart.now ≡ footing_on self.old.heart.ghost_name self.old.heart.now }
        ensures sweeps { TriesToSweep self.old.heart.now.updaters self.old.heart.now.view self.new.heart.now.view }
    {
        self.count = self.count.saturating_add(1);
        self.heart.sweep(rt);
    }
}

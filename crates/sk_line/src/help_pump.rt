//! A pump that lets the updater itself propagate.
ghost use Rattle.std.specs.Prelude.{◌≡◌, length};
ghost use Rattle.sk_line.specs.Pumps.{no_footing, IsPumped, TriesToSweep, after_one};

use crate::pumps::Pump;
use sk_compose::Composable;
use sk_hub::Updater;
use std::sync::Wait;

/// Lets the updater serve every updater of its hub once.
#[derive(Drop)]
pub struct HelpPump {
    count: u64,
}

impl HelpPump {
    /// Before the first call.
    pub fn new() -> HelpPump
        ensures { result.count ≡ 0 }
    {
        HelpPump { count: 0 }
    }
}

impl<C: Composable> Pump<C> for HelpPump {
    ghost use Rattle.sk_line.specs.Pumps.{no_footing};

    ghost pumps = { λ p. p.count };

    ghost stands_on = { λ _. no_footing };

    /// Takes the turn for one round, unless another seat has it.
    fn pump<R: Wait>(&mut self, rt: &R, u: &mut Updater<C>)
        ensures updater { IsPumped u.old u.new }
        ensures count { self.new.count ≡ after_one self.old.count }
        ensures stays { no_footing ≡ no_footing }
        ensures helps { TriesToSweep (length u.old.view.sizes) u.old.view u.new.view }
    {
        self.count = self.count.saturating_add(1);
        u.help(rt);
    }
}

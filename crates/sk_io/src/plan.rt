// Which calls of a form in memory are to fail.
ghost use Rattle.std.specs.Prelude.{◌≡◌};
ghost use Rattle.sk_model.specs.Causes.{Rose};

use crate::stream::Failed;
use std::marker::Model;

/// The numbers of the calls that fail, from 0, with the counts of calls and faults so far.
#[derive(Drop)]
pub struct Plan {
    fails: Vec<u64>,
    made: u64,
    faults: u64,
}

impl Model for Plan {
    ghost use Rattle.sk_io.specs.Memory.{Calls};

    ghost Value = { Calls };

    ghost view = { λ p. record { fails = p.fails.items; made = p.made; faults = p.faults } };
}

impl Plan {
    ghost use Rattle.sk_io.specs.Memory.{planned, next_fails, called, failed};

    pub fn new(fails: Vec<u64>) -> Self
        ensures { result ≡ planned fails.items }
    {
        Plan {
            fails,
            made: 0,
            faults: 0,
        }
    }

    /// Counts a call, and returns whether it is one of those that fail.
    pub fn call(&mut self) -> bool
        ensures answer { result ≡ next_fails self.old }
        ensures calls { self.new ≡ called self.old }
    {
        let fails = self.fails.contains(&self.made);
        self.made = self.made.saturating_add(1);
        fails
    }

    /// Counts a fault.
    pub fn fail(&mut self) -> Failed
        ensures calls { self.new ≡ failed self.old }
        ensures rose { Rose self.old.faults self.new.faults }
    {
        self.faults = self.faults.saturating_add(1);
        Failed
    }
}

//! What is called with a hub at each full window.
ghost use Rattle.std.specs.Prelude.{◌≡◌, ℕ, List, Option, OnOk, IfErr, IfSome};
ghost use Rattle.sk_model.specs.Causes.{HasCauseIn};
ghost use Rattle.sk_feed.specs.Hubs.{Hub, hub_of, IsHub, LeavesHub};
ghost use Rattle.sk_ingest.specs.declared.report.Stop.{Stop as Stops};

use sk_compose::Composable;
use sk_hub::Opened;
use sk_model::OutOfMemory;
use sk_read::Fault;

/// Why a report stopped.
#[derive(Clone, Copy, Debug, PartialEq, Eq)]
pub enum Stop {
    /// What it writes to failed.
    Failed,
    OutOfMemory,
}

impl From<OutOfMemory> for Stop {
    ghost use Rattle.sk_ingest.specs.declared.report.Stop.TheVariants as stop;

    ghost from_gives = { λ _ e. e ≡ stop.OutOfMemory };

    fn from(_: OutOfMemory) -> Self {
        Stop::OutOfMemory
    }
}

impl From<Stop> for Fault {
    ghost use Rattle.sk_ingest.specs.Stops.{fault_by};

    ghost from_gives = { λ stop e. e ≡ fault_by stop };

    fn from(stop: Stop) -> Self {
        match stop {
            Stop::Failed => Fault::WriteFault,
            Stop::OutOfMemory => Fault::OutOfMemory,
        }
    }
}

/// What is called with the number of lines that were fed, and may ask the hub.
pub trait Report<C: Composable> {
    /// How often what it writes to has failed. The count stops at the largest `u64`.
    ghost faults: { Self → ℕ };

    /// From one report to another at a line: the handles before and after it.
    ghost reports: { Self → ℕ → Hub → Hub → Self → Type 0 };

    /// The same if it stopped.
    ghost breaks: { Self → Stops → ℕ → Hub → Hub → Self → Type 0 };

    /// The ghost names of the borrows that it holds, which no `at` changes.
    ghost stands_on: { Self → List ℕ };

    /// The name of the sketch that it reads, if it reads one.
    ghost sketch: { Self → Option (List ℕ) };

    /// This many lines were fed. It keeps, hands over and drains nothing.
    fn at(&mut self, line: u64, opened: &mut Opened<C>) -> Result<(), Stop>
        requires hub { IsHub (hub_of opened.old) }
        requires sketch { IfSome (sketch self.old) (λ name. opened.old.heart.view.name ≡ name) }
        ensures reports { OnOk result (reports self.old line (hub_of opened.old) (hub_of opened.new) self.new) }
        ensures breaks { IfErr result (λ stop. breaks self.old stop line (hub_of opened.old) (hub_of opened.new) self.new) }
        ensures cause { HasCauseIn Stop.Failed (faults self.old) (faults self.new) result }
        ensures leaves { LeavesHub (hub_of opened.old) (hub_of opened.new) }
        ensures hub { IsHub (hub_of opened.new) }
        ensures stays { stands_on self.new ≡ stands_on self.old }
        ensures named { sketch self.new ≡ sketch self.old };
}

// The command that counts lines which it makes itself.
ghost use Rattle.std.specs.Prelude.{◌≡◌, ◌≢◌, ℕ, [], Option, List, IfErr, IfSome};
ghost use Rattle.sk_cli.specs.Beside.{beside_of, CountingHub, IsFullBoard};
ghost use Rattle.sk_cli.specs.Outside.{over_output};
ghost use Rattle.sk_cli.specs.Run.{Executes, HasCauses, LeavesBeside};
ghost use Rattle.sk_cli.specs.commands.Make.{plan_by, IsWithin, counted_by, making};

use crate::commands::count::count;
use crate::fault::Fault;
use crate::options::{Name, Options};
use crate::remains::Remains;
use sk_count::Plan;
use sk_io::Sink;
use sk_make::{MOST_MADE, MakeSource};
use sk_model::limits::{LEAST_K, MOST_K, MOST_SIZE, SOURCE_LIMIT};
use sk_quant::limits::KEY_END;
use sk_read::Kind;
use sk_report::Numbers;
use sk_watch::Seen;
use std::alloc::Global;
use std::sync::Wait;
use std::thread::Threads;

/// Which lines are made, and how they are counted.
#[derive(Clone, Copy)]
pub struct MakePlan {
    /// How many lines there are.
    pub n: u64,
    /// Whose numbers they spell.
    pub key: u64,
    /// How many hashes the sketch keeps.
    pub k: u32,
    /// How many items a buffer of each updater holds.
    pub size: u64,
    /// How many updaters there are.
    pub updaters: u32,
    /// Whether the heart propagates for the updaters.
    pub propagator: bool,
}

impl MakePlan {
    /// The plan that the options spell. `None` if a value is out of its form or its limits, or the number of
    /// lines is not given.
    pub fn of(options: &Options<'_>) -> Option<MakePlan>
        ensures value { result ≡ plan_by options.now }
        ensures limits { IfSome result IsWithin }
    {
        let n = options.required(Name::N, 0, MOST_MADE)?;
        let key = options.number(Name::Key, 0, KEY_END - 1, 0)?;
        let k = options.number(Name::K, u64::from(LEAST_K), u64::from(MOST_K), 4_096)? as u32;
        let size = options.number(Name::B, 1, u64::from(MOST_SIZE), 64)?;
        let updaters = options.updaters()?;
        let propagator = options.propagator()?;
        Some(MakePlan {
            n,
            key,
            k,
            size,
            updaters,
            propagator,
        })
    }

    // How the lines are counted: each spells a number, and its item is one more.
    fn counted(&self) -> Plan
        ensures { result ≡ counted_by self.now }
    {
        let mut sizes = Numbers::new();
        sizes.push(self.size);
        Plan {
            k: self.k,
            kind: Kind::Raw,
            column: 0,
            sizes,
            updaters: self.updaters,
            window: None,
            eager: true,
            propagator: self.propagator,
            alarms: Numbers::new(),
            made: Some(self.n),
        }
    }
}

/// Counts the lines that it makes by many updaters, and writes how many they are and one thread's estimate. It reads
/// nothing.
pub fn make<R: Threads + Wait + Sync, O: Sink, B: Seen, W: Wait + Drop>(
    rt: &R,
    alloc: Global,
    plan: &MakePlan,
    out: &mut O,
    board: &mut B,
    remains: &mut Remains<W>,
) -> Result<(), Fault>
    requires within { IsWithin plan.now }
    requires board { IsFullBoard (B.places board.old) }
    ensures done { (most : ℕ) (left : Option (List ℕ)) (faults last : ℕ) → let old = over_output O.Sink left faults last out.old in
        let new = over_output O.Sink left faults last out.new in
        Executes (making plan.now) most (beside_of (B.places board.old) remains.old) (beside_of (B.places board.new) remains.new) old new result }
    ensures causes { (left : Option (List ℕ)) (faults last : ℕ) → let old = over_output O.Sink left faults last out.old in
        let new = over_output O.Sink left faults last out.new in HasCauses old new result }
    ensures last { IfErr result (λ fault. fault ≢ Fault.WriteFault → out.new ≡ out.old) }
    ensures beside { LeavesBeside [] CountingHub (beside_of (B.places board.old) remains.old) (beside_of (B.places board.new) remains.new) result }
{
    let Ok(mut source) = MakeSource::new(plan.n, plan.key) else {
        return Err(Fault::OutOfMemory);
    };
    count(
        rt,
        alloc,
        &plan.counted(),
        SOURCE_LIMIT,
        &mut source,
        out,
        board,
        remains,
    )
}

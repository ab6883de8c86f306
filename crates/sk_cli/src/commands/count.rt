// The command that estimates how many distinct items there are.
ghost use Rattle.std.specs.Prelude.{◌≡◌, ◌≢◌, ◌≤◌, None, IfErr, IfSome, true};
ghost use Rattle.sk_model.specs.Limits.{source_limit};
ghost use Rattle.sk_cli.specs.Beside.{beside_of, CountingHub, IsFullBoard};
ghost use Rattle.sk_cli.specs.Outside.{streams_of};
ghost use Rattle.sk_cli.specs.Run.{Executes, HasCauses, LeavesBeside};
ghost use Rattle.sk_cli.specs.commands.Count.{what_by, how_by, plan_by, IsWithin, IsWhat, IsHow, counting};

use crate::fault::Fault;
use crate::options::{Name, Options};
use crate::remains::Remains;
use sk_count::Plan;
use sk_io::{Sink, Source};
use sk_model::limits::{LEAST_K, MOST_K};
use sk_read::Kind;
use sk_report::Numbers;
use sk_watch::Seen;
use std::alloc::Global;
use std::sync::Wait;
use std::thread::Threads;

/// What is counted, and by how many hashes.
#[derive(Clone, Copy)]
pub struct What {
    /// How many hashes the sketch keeps.
    pub k: u32,
    /// How a line or a field becomes an item.
    pub kind: Kind,
    /// The lines at 0, else the fields in this column, counted from 1, of the records.
    pub column: u32,
}

/// By which updaters items are counted, and what is written meanwhile.
#[derive(Clone, Copy)]
pub struct How {
    /// How many updaters there are.
    pub updaters: u32,
    /// How many items a buffer of each updater holds, the last for all further updaters.
    pub sizes: Numbers,
    /// After how many lines an estimate is written, if that is asked for.
    pub window: Option<u32>,
    /// Whether updaters propagate by themselves while the sketch is small.
    pub eager: bool,
    /// Whether the heart propagates for the updaters.
    pub propagator: bool,
    /// At which estimates an alarm is written.
    pub alarms: Numbers,
}

impl What {
    /// What the options spell. `None` if a number is out of its limits.
    pub fn of(options: &Options<'_>) -> Option<What>
        ensures value { result ≡ what_by options.now }
        ensures limits { IfSome result IsWhat }
    {
        let k = options.number(Name::K, u64::from(LEAST_K), u64::from(MOST_K), 4_096)? as u32;
        let seed = options.seed()?;
        let kind = if options.has(Name::Raw) {
            Kind::Raw
        } else {
            Kind::Hash(seed)
        };
        let column = options.column()?;
        Some(What { k, kind, column })
    }
}

impl How {
    /// What the options spell. `None` if a value is out of its form or its limits.
    pub fn of(options: &Options<'_>) -> Option<How>
        ensures value { result ≡ how_by options.now }
        ensures limits { IfSome result IsHow }
    {
        let updaters = options.updaters()?;
        let sizes = options.sizes()?;
        let window = options.window()?;
        let eager = options.eager()?;
        let propagator = options.propagator()?;
        let alarms = options.alarms()?;
        Some(How {
            updaters,
            sizes,
            window,
            eager,
            propagator,
            alarms,
        })
    }
}

/// The plan that the options spell. `None` if a value is out of its form or its limits.
pub fn plan_of(options: &Options<'_>) -> Option<Plan>
    ensures value { result ≡ plan_by options.now }
    ensures limits { IfSome result IsWithin }
{
    let what = What::of(options)?;
    let how = How::of(options)?;
    Some(Plan {
        k: what.k,
        kind: what.kind,
        column: what.column,
        sizes: how.sizes,
        updaters: how.updaters,
        window: how.window,
        eager: how.eager,
        propagator: how.propagator,
        alarms: how.alarms,
        made: None,
    })
}

/// Counts the distinct items of a source by many updaters, and writes an estimate after each full window, if that
/// is asked for, and last one thread's estimate of all.
pub fn count<R: Threads + Wait + Sync, S: Source, O: Sink, B: Seen, W: Wait + Drop>(
    rt: &R,
    alloc: Global,
    plan: &Plan,
    most: u64,
    source: &mut S,
    out: &mut O,
    board: &mut B,
    remains: &mut Remains<W>,
) -> Result<(), Fault>
    requires within { IsWithin plan.now }
    requires bound { most ≤ source_limit }
    requires board { IsFullBoard (B.places board.old) }
    ensures done { let old = streams_of S.Source O.Sink source.old out.old in
        let new = streams_of S.Source O.Sink source.new out.new in
        Executes (counting plan.now) most (beside_of (B.places board.old) remains.old) (beside_of (B.places board.new) remains.new) old new result }
    ensures causes { let old = streams_of S.Source O.Sink source.old out.old in
        let new = streams_of S.Source O.Sink source.new out.new in HasCauses old new result }
    ensures last { (counting plan.now).writes_last ≡ true → IfErr result (λ fault. fault ≢ Fault.WriteFault → out.new ≡ out.old) }
    ensures beside { LeavesBeside plan.now.alarms CountingHub (beside_of (B.places board.old) remains.old) (beside_of (B.places board.new) remains.new) result }
    ensures stays { S.stands_on source.new ≡ S.stands_on source.old }
{
    match sk_count::count(rt, alloc, plan, most, source, out, board) {
        Ok(left) => {
            remains.put_counted(left);
            Ok(())
        }
        Err(fault) => Err(Fault::of_reading(plan.column, fault)),
    }
}

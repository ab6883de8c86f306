//! The ranking.
ghost use Rattle.std.specs.Prelude.{◌≡◌, ◌≢◌, ◌≤◌, None, IfErr};
ghost use Rattle.sk_model.specs.Causes.{HasCauseIn};
ghost use Rattle.sk_model.specs.Limits.{source_limit};
ghost use Rattle.sk_tell.specs.Endings.{setting, TellsOrEnds};
ghost use Rattle.sk_rank.specs.Plans.{IsWithin, rank_manner};

use crate::line::RankOf;
use crate::plan::Plan;
use sk_io::{Sink, Source};
use sk_quant::Quant;
use sk_read::{Fault, Kind};
use sk_snap::QuantSetup;
use sk_tell::{Handles, Telling, tell};
use std::alloc::Global;
use std::sync::Wait;
use std::thread::Threads;

/// What a ranking leaves: the heart of its hub, and the reader of its sketch.
pub type Ranked<W> = Handles<Quant, W>;

/// Reads the numbers of a source of fewer than `most` bytes, one a line, and once it has ended writes how many there
/// are, how many of them lie below the plan's, and by how much that may be off. After each full window that the plan
/// asks for it writes the same of what its updaters know by then.
pub fn rank<'r, S: Source, O: Sink, R: Threads + Wait + Sync>(
    rt: &'r R,
    alloc: Global,
    plan: &Plan,
    most: u64,
    source: &mut S,
    out: &mut O,
) -> Result<Ranked<&'r R>, Fault>
    requires within { IsWithin plan.now }
    requires bound { most ≤ source_limit }
    ensures ranks { TellsOrEnds (rank_manner plan.now) (S.last source.new) most (setting (S.left source.old) (O.written out.old)) (setting (S.left source.new) (O.written out.new)) result }
    ensures quiet { plan.now.window ≡ None → IfErr result (λ fault. fault ≢ Fault.WriteFault → out.new ≡ out.old) }
    ensures reads { HasCauseIn Fault.ReadFault (S.faults source.old) (S.faults source.new) result }
    ensures writes { HasCauseIn Fault.WriteFault (O.faults out.old) (O.faults out.new) result }
    ensures stays { S.stands_on source.new ≡ S.stands_on source.old }
{
    let telling = Telling {
        setup: QuantSetup {
            k: plan.k,
            key: plan.key,
        },
        query: RankOf { at: plan.at },
        kind: Kind::Raw,
        column: 0,
        size: plan.size,
        updaters: plan.updaters,
        window: plan.window,
        propagator: plan.propagator,
    };
    tell(rt, alloc, &telling, most, source, out)
}

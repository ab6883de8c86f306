//! The tally.
ghost use Rattle.std.specs.Prelude.{◌≡◌, ◌≢◌, ◌≤◌, None, IfErr};
ghost use Rattle.sk_model.specs.Causes.{HasCauseIn};
ghost use Rattle.sk_model.specs.Limits.{source_limit};
ghost use Rattle.sk_tell.specs.Endings.{setting};
ghost use Rattle.sk_tally.specs.Plans.{IsWithin};
ghost use Rattle.sk_tally.specs.Headline.{Tallies};

use crate::line::TallyOf;
use crate::plan::Plan;
use crate::whole::tally_whole;
use sk_cms::CmsSetup;
use sk_io::{Sink, Source};
use sk_read::{Fault, Kind};
use sk_tell::{Telling, tell};
use std::alloc::Global;
use std::sync::Wait;
use std::thread::Threads;

/// Reads the lines of a source of fewer than `most` bytes, and once it has ended writes how many items there are, and the
/// Count-Min estimate of how often the plan's is among them. After each full window that the plan asks for it writes the
/// same of what its updaters know by then.
pub fn tally<S: Source, O: Sink, R: Threads + Wait + Sync>(
    rt: &R,
    alloc: Global,
    plan: &Plan,
    most: u64,
    source: &mut S,
    out: &mut O,
) -> Result<(), Fault>
    requires within { IsWithin plan.now }
    requires bound { most ≤ source_limit }
    ensures tallies { Tallies plan.now (S.last source.new) most (setting (S.left source.old) (O.written out.old)) (setting (S.left source.new) (O.written out.new)) result }
    ensures quiet { plan.now.window ≡ None → IfErr result (λ fault. fault ≢ Fault.WriteFault → out.new ≡ out.old) }
    ensures reads { HasCauseIn Fault.ReadFault (S.faults source.old) (S.faults source.new) result }
    ensures writes { HasCauseIn Fault.WriteFault (O.faults out.old) (O.faults out.new) result }
    ensures stays { S.stands_on source.new ≡ S.stands_on source.old }
{
    if plan.window.is_none() {
        return tally_whole(rt, alloc, plan, most, source, out);
    }
    let telling = Telling {
        setup: CmsSetup {
            rows: plan.rows,
            width: plan.width,
        },
        query: TallyOf { item: plan.item },
        kind: Kind::Hash(plan.seed),
        column: plan.column,
        size: plan.size,
        updaters: plan.updaters,
        window: plan.window,
        propagator: plan.propagator,
    };
    let _handles = tell(rt, alloc, &telling, most, source, out)?;
    Ok(())
}

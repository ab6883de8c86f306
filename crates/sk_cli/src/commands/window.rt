// The command that estimates how many distinct items the last intervals have.
ghost use Rattle.std.specs.Prelude.{◌≡◌, ◌≢◌, ◌≤◌, IfErr, IfSome, true};
ghost use Rattle.sk_model.specs.Limits.{source_limit};
ghost use Rattle.sk_panes.specs.Plans.{IsWithin};
ghost use Rattle.sk_cli.specs.Beside.{Beside};
ghost use Rattle.sk_cli.specs.Outside.{streams_of};
ghost use Rattle.sk_cli.specs.Run.{Executes, HasCauses};
ghost use Rattle.sk_cli.specs.commands.Window.{plan_by, paning};

use crate::fault::{Fault, Refusal};
use crate::options::{Name, Options};
use sk_io::{Sink, Source};
use sk_panes::Plan;
use std::alloc::Global;
use std::sync::Wait;
use std::thread::Threads;

// The greatest span of an interval.
const MOST_SPAN: u64 = (1 << 48) - 1;

// How many intervals an estimate is of, at least and at most.
const LEAST_LAST: u64 = 2;

const MOST_LAST: u64 = 64;

/// The plan that the options spell. `None` if a value is out of its form or its limits, or the span of an interval or
/// their number is not given.
pub fn plan_of(options: &Options<'_>) -> Option<Plan>
    ensures value { result ≡ plan_by options.now }
    ensures limits { IfSome result IsWithin }
{
    let span = options.required(Name::Span, 1, MOST_SPAN)?;
    let last = options.required(Name::Last, LEAST_LAST, MOST_LAST)? as u32;
    let k = options.k()?;
    let size = options.size()?;
    let seed = options.seed()?;
    Some(Plan {
        k,
        size,
        seed,
        span,
        last,
    })
}

/// Reads lines of a moment and an item, and writes for interval 0 and each further one that has a line, once it has
/// ended, the estimate of how many distinct items it and those before it have, as many intervals as the plan says.
pub fn window<R: Threads + Wait + Sync, S: Source, O: Sink>(
    rt: &R,
    alloc: Global,
    plan: &Plan,
    most: u64,
    source: &mut S,
    out: &mut O,
) -> Result<(), Fault>
    requires within { IsWithin plan.now }
    requires bound { most ≤ source_limit }
    ensures done { (from to : Beside) → let old = streams_of S.Source O.Sink source.old out.old in
        let new = streams_of S.Source O.Sink source.new out.new in Executes (paning plan.now) most from to old new result }
    ensures causes { let old = streams_of S.Source O.Sink source.old out.old in
        let new = streams_of S.Source O.Sink source.new out.new in HasCauses old new result }
    ensures last { (paning plan.now).writes_last ≡ true → IfErr result (λ fault. fault ≢ Fault.WriteFault → out.new ≡ out.old) }
    ensures stays { S.stands_on source.new ≡ S.stands_on source.old }
{
    match sk_panes::window(rt, alloc, plan, most, source, out) {
        Ok(()) => Ok(()),
        Err(fault) => Err(Fault::of_labels(Refusal::Earlier, fault)),
    }
}

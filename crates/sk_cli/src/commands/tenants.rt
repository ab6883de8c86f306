// The command that estimates how many distinct items each tenant has.
ghost use Rattle.std.specs.Prelude.{◌≡◌, ◌≢◌, ◌≤◌, IfErr, IfSome, true};
ghost use Rattle.sk_desks.specs.Plans.{IsWithin as AreDesks};
ghost use Rattle.sk_model.specs.Limits.{source_limit};
ghost use Rattle.sk_cli.specs.Beside.{Beside};
ghost use Rattle.sk_cli.specs.Outside.{streams_of};
ghost use Rattle.sk_cli.specs.Run.{Executes, HasCauses};
ghost use Rattle.sk_cli.specs.commands.Tenants.{plan_by, desks_by, IsWithin, hosting};

use crate::fault::{Fault, Refusal};
use crate::names::NameList;
use crate::options::{Name, Options};
use sk_desks::Plan;
use sk_io::{Sink, Source};
use std::alloc::Global;
use std::sync::Wait;
use std::thread::Threads;

/// Whose items are counted, and how.
#[derive(Drop)]
pub struct TenantsPlan<'a> {
    /// The names of the tenants.
    pub names: NameList<'a>,
    /// By how many hashes, which buffers and how many updaters.
    pub desks: Plan,
}

impl<'a> TenantsPlan<'a> {
    /// The plan that the options spell. `None` if a value is out of its form or its limits, or no names are given.
    pub fn of(options: &Options<'a>) -> Option<TenantsPlan<'a>>
        ensures value { result ≡ plan_by options.now }
        ensures limits { IfSome result IsWithin }
    {
        let names = NameList::of(options.value(Name::TenantNames)?)?;
        let desks = desks_of(options)?;
        Some(TenantsPlan { names, desks })
    }
}

// By how many hashes, which buffers and how many updaters the options say that items are counted.
fn desks_of(options: &Options<'_>) -> Option<Plan>
    ensures value { result ≡ desks_by options.now }
    ensures limits { IfSome result AreDesks }
{
    let k = options.k()?;
    let size = options.size()?;
    let seed = options.seed()?;
    let updaters = options.updaters()?;
    Some(Plan {
        k,
        size,
        seed,
        updaters,
    })
}

/// Reads lines of a name and an item to their end, and then writes for each tenant, in the order of the names, the estimate
/// of how many distinct items its lines have.
pub fn tenants<R: Threads + Wait + Sync, S: Source, O: Sink>(
    rt: &R,
    alloc: Global,
    plan: &TenantsPlan<'_>,
    most: u64,
    source: &mut S,
    out: &mut O,
) -> Result<(), Fault>
    requires within { IsWithin plan.now }
    requires bound { most ≤ source_limit }
    ensures done { (from to : Beside) → let old = streams_of S.Source O.Sink source.old out.old in
        let new = streams_of S.Source O.Sink source.new out.new in Executes (hosting plan.now) most from to old new result }
    ensures causes { let old = streams_of S.Source O.Sink source.old out.old in
        let new = streams_of S.Source O.Sink source.new out.new in HasCauses old new result }
    ensures last { IfErr result (λ fault. fault ≢ Fault.WriteFault → out.new ≡ out.old) }
    ensures stays { S.stands_on source.new ≡ S.stands_on source.old }
{
    let names = plan.names.texts(alloc)?;
    match sk_desks::tenants(rt, alloc, &plan.desks, names, most, source, out) {
        Ok(()) => Ok(()),
        Err(fault) => Err(Fault::of_labels(Refusal::Unknown, fault)),
    }
}

// The command that estimates the rank of a number.
ghost use Rattle.std.specs.Prelude.{◌≡◌, ◌≢◌, ◌≤◌, List, IfErr, IfSome, true};
ghost use Rattle.sk_model.specs.Limits.{source_limit};
ghost use Rattle.sk_rank.specs.Plans.{IsWithin};
ghost use Rattle.sk_cli.specs.Beside.{beside_of, SameHub};
ghost use Rattle.sk_cli.specs.Outside.{streams_of};
ghost use Rattle.sk_cli.specs.Run.{Executes, HasCauses};
ghost use Rattle.sk_cli.specs.commands.Quantile.{what_by, how_by, plan_by, IsWhat, IsHow, ranking};
ghost use Rattle.sk_watch.specs.Places.{Place};

use crate::fault::Fault;
use crate::options::{Name, Options};
use crate::remains::Remains;
use sk_io::{Sink, Source};
use sk_quant::limits::{KEY_END, LEAST_QUANTILE_K, MOST_QUANTILE_K};
use sk_rank::{Plan, rank};
use std::alloc::Global;
use std::sync::Wait;
use std::thread::Threads;

// The greatest number whose rank may be asked for.
const MOST_AT: u64 = (1 << 48) - 1;

/// Which number's rank is wanted, and by which sketch.
#[derive(Clone, Copy, Debug, PartialEq, Eq)]
pub struct What {
    /// How many items a level of the sketch has.
    pub k: u32,
    /// Whose coins it tosses.
    pub key: u64,
    /// The number whose rank is wanted.
    pub at: u64,
}

/// By which updaters numbers are ranked, and what is written meanwhile.
#[derive(Clone, Copy, Debug, PartialEq, Eq)]
pub struct How {
    /// How many items a buffer of each updater holds.
    pub size: u32,
    /// How many updaters there are.
    pub updaters: u32,
    /// After how many lines a rank is written, if that is asked for.
    pub window: Option<u32>,
    /// Whether the heart propagates for the updaters.
    pub propagator: bool,
}

impl What {
    /// What the options spell. `None` if a number is out of its limits, or that whose rank is wanted is not given.
    pub fn of(options: &Options<'_>) -> Option<What>
        ensures value { result ≡ what_by options.now }
        ensures limits { IfSome result IsWhat }
    {
        let at = options.required(Name::At, 0, MOST_AT)?;
        let (least, most) = (u64::from(LEAST_QUANTILE_K), u64::from(MOST_QUANTILE_K));
        let k = options.number(Name::K, least, most, 128)? as u32;
        let key = options.number(Name::Key, 0, KEY_END - 1, 0)?;
        Some(What { k, key, at })
    }
}

impl How {
    /// What the options spell. `None` if a value is out of its form or its limits.
    pub fn of(options: &Options<'_>) -> Option<How>
        ensures value { result ≡ how_by options.now }
        ensures limits { IfSome result IsHow }
    {
        let size = options.size()?;
        let updaters = options.updaters()?;
        let window = options.window()?;
        let propagator = options.propagator()?;
        Some(How {
            size,
            updaters,
            window,
            propagator,
        })
    }
}

/// The plan that the options spell, in which the number whose rank is wanted is an item: one more. `None` if a value is
/// out of its form or its limits, or the number is not given.
pub fn plan_of(options: &Options<'_>) -> Option<Plan>
    ensures value { result ≡ plan_by options.now }
    ensures limits { IfSome result IsWithin }
{
    let what = What::of(options)?;
    let how = How::of(options)?;
    Some(Plan {
        k: what.k,
        key: what.key,
        at: what.at + 1,
        size: how.size,
        updaters: how.updaters,
        window: how.window,
        propagator: how.propagator,
    })
}

/// Reads the numbers of a source, one a line, by many updaters, and once it has ended writes how many there are, how
/// many of their items are below the plan's, and by how much that may be off (Agarwal and others, "Mergeable Summaries",
/// PODS 2012); after each full window, if that is asked for, the same of what was published by then. As many numbers are
/// below the one that was asked for (`laws::ranks_are_of_numbers`).
pub fn quantile<'r, R: Threads + Wait + Sync, S: Source, O: Sink>(
    rt: &'r R,
    alloc: Global,
    plan: &Plan,
    most: u64,
    source: &mut S,
    out: &mut O,
    remains: &mut Remains<&'r R>,
) -> Result<(), Fault>
    requires within { IsWithin plan.now }
    requires bound { most ≤ source_limit }
    ensures done { (before after : List Place) → let old = streams_of S.Source O.Sink source.old out.old in
        let new = streams_of S.Source O.Sink source.new out.new in
        Executes (ranking plan.now) most (beside_of before remains.old) (beside_of after remains.new) old new result }
    ensures causes { let old = streams_of S.Source O.Sink source.old out.old in
        let new = streams_of S.Source O.Sink source.new out.new in HasCauses old new result }
    ensures last { (ranking plan.now).writes_last ≡ true → IfErr result (λ fault. fault ≢ Fault.WriteFault → out.new ≡ out.old) }
    ensures remains { IfErr result (λ _. remains.new ≡ remains.old) }
    ensures hub { SameHub remains.old remains.new }
    ensures stays { S.stands_on source.new ≡ S.stands_on source.old }
{
    match rank(rt, alloc, plan, most, source, out) {
        Ok((heart, reader)) => {
            remains.ranks = Some(heart);
            remains.reader = Some(reader);
            Ok(())
        }
        Err(fault) => Err(Fault::of_reading(0, fault)),
    }
}

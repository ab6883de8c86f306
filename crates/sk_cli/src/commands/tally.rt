// The command that counts how often one item comes.
ghost use Rattle.std.specs.Prelude.{◌≡◌, ◌≢◌, ◌≤◌, IfErr, IfSome, true};
ghost use Rattle.sk_model.specs.Limits.{source_limit};
ghost use Rattle.sk_tally.specs.Plans.{IsWithin};
ghost use Rattle.sk_cli.specs.Beside.{Beside};
ghost use Rattle.sk_cli.specs.Outside.{streams_of};
ghost use Rattle.sk_cli.specs.Run.{Executes, HasCauses};
ghost use Rattle.sk_cli.specs.commands.Tally.{what_by, plan_by, IsWhat, tallying};

use crate::commands::quantile::How;
use crate::fault::Fault;
use crate::options::{Name, Options};
use sk_cms::limits::{MOST_ROWS, MOST_WIDTH};
use sk_hash::hash63;
use sk_io::{Sink, Source};
use sk_tally::Plan;
use std::alloc::Global;
use std::sync::Wait;
use std::thread::Threads;

/// Which item is counted, and by which sketch.
#[derive(Clone, Copy, Debug, PartialEq, Eq)]
pub struct What {
    /// How many rows the sketch has.
    pub rows: u32,
    /// How many cells a row has.
    pub width: u32,
    /// The seed by which lines become items.
    pub seed: u32,
    /// The item that is counted.
    pub item: u64,
    /// The lines at 0, else the fields in this column, counted from 1, of the records.
    pub column: u32,
}

impl What {
    /// What the options spell. `None` if a number is out of its limits, or one of those that have to be given is not.
    pub fn of(options: &Options<'_>) -> Option<What>
        ensures value { result ≡ what_by options.now }
        ensures limits { IfSome result IsWhat }
    {
        let rows = options.required(Name::Rows, 1, u64::from(MOST_ROWS))? as u32;
        let width = options.required(Name::Width, 1, u64::from(MOST_WIDTH))? as u32;
        let word = options.word(Name::Item)?;
        let seed = options.seed()?;
        let item = hash63(seed, word.as_bytes());
        let column = options.column()?;
        Some(What {
            rows,
            width,
            seed,
            item,
            column,
        })
    }
}

/// The plan that the options spell, in which the word that is counted is an item, as a line of it would be. `None` if a
/// value is out of its form or its limits, or one of those that have to be given is not.
pub fn plan_of(options: &Options<'_>) -> Option<Plan>
    ensures value { result ≡ plan_by options.now }
    ensures limits { IfSome result IsWithin }
{
    let what = What::of(options)?;
    let how = How::of(options)?;
    Some(Plan {
        rows: what.rows,
        width: what.width,
        seed: what.seed,
        item: what.item,
        column: what.column,
        size: how.size,
        updaters: how.updaters,
        window: how.window,
        propagator: how.propagator,
    })
}

/// Reads the items of a source by many updaters, and once it has ended writes how many there are and how often the plan's
/// item comes, or more (Cormode and Muthukrishnan, "An improved data stream summary: the count-min sketch and its
/// applications", Journal of Algorithms 55, 2005); after each full window, if that is asked for, the same of what was
/// published by then.
pub fn tally<R: Threads + Wait + Sync, S: Source, O: Sink>(
    rt: &R,
    alloc: Global,
    plan: &Plan,
    most: u64,
    source: &mut S,
    out: &mut O,
) -> Result<(), Fault>
    requires within { IsWithin plan.now }
    requires bound { most ≤ source_limit }
    ensures done { (from to : Beside) → let old = streams_of S.Source O.Sink source.old out.old in
        let new = streams_of S.Source O.Sink source.new out.new in Executes (tallying plan.now) most from to old new result }
    ensures causes { let old = streams_of S.Source O.Sink source.old out.old in
        let new = streams_of S.Source O.Sink source.new out.new in HasCauses old new result }
    ensures last { (tallying plan.now).writes_last ≡ true → IfErr result (λ fault. fault ≢ Fault.WriteFault → out.new ≡ out.old) }
    ensures stays { S.stands_on source.new ≡ S.stands_on source.old }
{
    match sk_tally::tally(rt, alloc, plan, most, source, out) {
        Ok(()) => Ok(()),
        Err(fault) => Err(Fault::of_reading(plan.column, fault)),
    }
}

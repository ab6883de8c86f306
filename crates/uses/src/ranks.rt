//! The rank of a number among those that a source spells, by several updaters.
ghost use Rattle.std.specs.Prelude.{OnOk};
ghost use Rattle.sk_model.specs.Limits.{most_updaters, IsFrom};
ghost use Rattle.uses.specs.Told.{TellsRank};

use sk_io::{Sink, Source};
use sk_model::limits::SOURCE_LIMIT;
use sk_rank::laws::ranks_of_lists_are_near;
use sk_rank::{Fault, Plan, rank};
use std::alloc::Global;
use std::sync::Wait;
use std::thread::Threads;

/// Reads numbers, one a line, and writes how many there are, how many of their items are below `at`, and by how
/// much that may be off, with this many updaters. The number n is item n + 1, so numbers below X are asked
/// for by X + 1.
pub fn rank_source<S: Source, O: Sink, R: Threads + Wait + Sync>(
    rt: &R,
    alloc: Global,
    at: u64,
    updaters: u32,
    source: &mut S,
    out: &mut O,
) -> Result<(), Fault>
    requires updaters { IsFrom 1 most_updaters updaters }
    ensures { OnOk result (TellsRank at 128 (S.left source.old) (S.left source.new) (O.written out.old) (O.written out.new)) }
{
    let plan = Plan {
        k: 128,
        key: 0,
        at,
        size: 64,
        updaters,
        window: None,
        propagator: true,
    };
    rank(rt, alloc, &plan, SOURCE_LIMIT, source, out)?;
    // It shows the proof that the reader's list has the items of all lines.
    ranks_of_lists_are_near();
    Ok(())
}

//! Stretches that are read and given to takers in other threads.
ghost use Rattle.std.specs.Prelude.{◌≡◌, ◌≤◌};
ghost use Rattle.sk_model.specs.Causes.{HasCauseIn};
ghost use Rattle.sk_ingest.specs.Supplies.{HasGiven, Supplies};

use sk_feed::Crew;
use sk_fill::{Stretch, fill_stretch};
use sk_io::Source;
use sk_lanes::{ENOUGH, Supply};
use sk_read::{Fault, Kind, LineReader};
use std::mem::replace;
use std::sync::Wait;

// Reads stretches and gives each to all takers, until the source ends, or a taker does, or they do not begin. The last
// one that was read was not given.
pub(crate) fn read_and_give<S: Source, R: Wait>(
    rt: &R,
    kind: Kind,
    reader: &mut LineReader,
    source: &mut S,
    next: &mut Stretch,
    supply: &mut Supply,
    crew: &Crew,
) -> Result<bool, Fault>
    requires given { HasGiven supply.old.outlets reader.old (S.left source.old) }
    requires least { 1 ≤ next.old.most }
    requires same { supply.old.most ≡ next.old.most }
    ensures supplies { Supplies kind next.old.most supply.old.outlets supply.new.outlets next.new reader.old reader.new (S.left source.old) (S.left source.new) result }
    ensures most { next.new.most ≡ next.old.most }
    ensures piece { reader.old.last ≤ S.last source.old → reader.new.last ≤ S.last source.new }
    ensures cause { HasCauseIn Fault.ReadFault (S.faults source.old) (S.faults source.new) result }
    ensures stays { S.stands_on source.new ≡ S.stands_on source.old }
{
    'stretch: for _ in rt.forever() {
        if !fill_stretch(reader, source, next, kind, ENOUGH)? {
            return Ok(false);
        }
        let Some(free) = supply.wait_for_one(rt, crew) else {
            return Ok(true);
        };
        let full = replace(next, free);
        supply.give(rt, full)?;
        crew.wake_feeders();
    }
    unreachable!()
}

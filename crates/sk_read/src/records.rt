// A column of a source's records, given to a taker.
ghost use Rattle.std.specs.Prelude.{◌≡◌, ◌≤◌, []};
ghost use Rattle.sk_model.specs.Causes.{HasCauseIn};
ghost use Rattle.sk_model.specs.Limits.{source_limit};
ghost use Rattle.sk_read.specs.Reads.{Reads};
ghost use Rattle.sk_read.specs.declared.units.Units.TheVariants as units;

mod column;
mod delimiters;
mod parts;
mod plain;
mod quoted;
mod quotes;
mod scan;
mod seek;

use crate::fault::Fault;
use crate::records::column::ColumnReader;
use crate::records::parts::Parts;
use crate::units::UnitTaker;
use sk_io::Source;
use std::alloc::Global;

// Gives the fields in a column of a source's records to the taker, and returns how many records
// there were.
pub(crate) fn read_records<S: Source, T: UnitTaker>(
    alloc: Global,
    column: u32,
    most: u64,
    source: &mut S,
    taker: &mut T,
) -> Result<u64, Fault>
    requires bound { most ≤ source_limit }
    requires start { T.went taker.old taker.old [] }
    ensures read { Reads (S.last source.new) (units.Column column) most (T.went taker.old taker.new) (T.stopped taker.old taker.new) (S.left source.old) (S.left source.new) result }
    ensures cause { HasCauseIn Fault.ReadFault (S.faults source.old) (S.faults source.new) result }
    ensures stays { S.stands_on source.new ≡ S.stands_on source.old }
    ensures taker { T.stands_on taker.new ≡ T.stands_on taker.old }
{
    let mut parts = Parts::start(alloc, most, source)?;
    let mut table = ColumnReader::new(column);
    'part: while parts.refill(source)? {
        table.give(alloc, parts.whole(), taker)?;
        parts.drop_whole();
    }
    table.give(alloc, parts.rest(), taker)?;
    Ok(table.number())
}

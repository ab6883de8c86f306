// The lines of a source, given to a taker.
ghost use Rattle.std.specs.Prelude.{◌≡◌, ◌≤◌, ℕ, List, [], ◌++◌, Option, OnOk, IfErr};
ghost use Rattle.sk_model.specs.Causes.{HasCauseIn};
ghost use Rattle.sk_model.specs.Limits.{source_limit};
ghost use Rattle.sk_lines.specs.Spans.{HasNoShortLine};
ghost use Rattle.sk_read.specs.Reading.{HasRead, GivesMore, remaining_of};
ghost use Rattle.sk_read.specs.Reads.{Reads, StopsAmong};
ghost use Rattle.sk_read.specs.declared.units.Units.TheVariants as units;

use crate::fault::Fault;
use crate::reader::LineReader;
use crate::units::UnitTaker;
use sk_io::Source;
use sk_lines::{GROUP, Span};
use std::alloc::Global;

// Gives a source's lines to the taker, and returns how many lines there were.
pub(crate) fn read_lines<S: Source, T: UnitTaker>(
    alloc: Global,
    most: u64,
    source: &mut S,
    taker: &mut T,
) -> Result<u64, Fault>
    requires bound { most ≤ source_limit }
    requires start { T.went taker.old taker.old [] }
    ensures read { Reads (S.last source.new) units.Lines most (T.went taker.old taker.new) (T.stopped taker.old taker.new) (S.left source.old) (S.left source.new) result }
    ensures cause { HasCauseIn Fault.ReadFault (S.faults source.old) (S.faults source.new) result }
    ensures stays { S.stands_on source.new ≡ S.stands_on source.old }
    ensures taker { T.stands_on taker.new ≡ T.stands_on taker.old }
{
    let mut reader = LineReader::new(alloc, most)?;
    let mut spans = [Span::EMPTY; GROUP];
    'line: while reader.next(source)? {
        taker.take(reader.line(), reader.number())?;
        give_held(&mut reader, &mut spans, taker)?;
    }
    Ok(reader.number())
}

// Gives the complete lines that the reader holds to the taker, many together, up to one that is too long. `spans`
// is room for them.
fn give_held<T: UnitTaker>(
    reader: &mut LineReader,
    spans: &mut [Span; GROUP],
    taker: &mut T,
) -> Result<(), Fault>
    requires behind { (start : _) × (left : Option (List ℕ)) × (given : List (List ℕ)) × (taken : List ℕ) × HasRead reader.old left given taken × T.went start taker.old given }
    ensures gave { OnOk result ((start : _) (left : Option (List ℕ)) (given : List (List ℕ)) (taken : List ℕ) → HasRead reader.old left given taken → T.went start taker.old given
        → GivesMore reader.new left given taken (λ more. T.went start taker.new (given ++ more))) }
    ensures stopped { IfErr result (λ why. (start : _) (left : Option (List ℕ)) (given : List (List ℕ)) (taken : List ℕ) → HasRead reader.old left given taken → T.went start taker.old given
        → GivesMore reader.new left given taken (λ more. StopsAmong (T.stopped start taker.new) why given more)) }
    ensures all { OnOk result (HasNoShortLine reader.new.cutter) }
    ensures most { reader.new.most ≡ reader.old.most }
    ensures piece { reader.new.last ≡ reader.old.last }
    ensures remaining { remaining_of reader.new ≤ remaining_of reader.old }
    ensures stays { T.stands_on taker.new ≡ T.stands_on taker.old }
{
    'group: loop {
        let before = reader.number();
        let count = reader.next_lines(spans);
        if count == 0 {
            return Ok(());
        }
        taker.take_all(reader.front(), &spans[..count], before)?;
    }
}

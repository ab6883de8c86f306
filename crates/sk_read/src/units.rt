// What a source is read into, and who takes that.
ghost use Rattle.std.specs.Prelude.{◌≡◌, ◌≤◌, ◌+◌, ℕ, List, [], ◌∷◌, ◌++◌, OnOk, IfErr, length};
ghost use Rattle.sk_model.specs.Causes.{HasCauseIn};
ghost use Rattle.sk_model.specs.Limits.{line_limit, source_limit, most_kept};
ghost use Rattle.sk_model.specs.Lines.{AreWithin};
ghost use Rattle.sk_lines.specs.Spans.{AreBehind, lines_at};
ghost use Rattle.sk_read.specs.Faults.{IsOfTaker};
ghost use Rattle.sk_read.specs.Reads.{Reads, StopsAmong};
ghost use Rattle.sk_read.specs.Standing.{Standing};
ghost use Rattle.sk_read.specs.Units.{units_by};
ghost use Rattle.sk_read.specs.declared.fault.Fault.{Fault};
ghost use Rattle.sk_read.specs.declared.fault.Fault.TheVariants as fault;

use crate::fault::Fault;
use crate::lines::read_lines;
use crate::records::read_records;
use sk_io::Source;
use sk_lines::{GROUP, Span};
use std::alloc::Global;

/// The units of a source: what of it becomes one item or none.
#[derive(Clone, Copy, Debug, PartialEq, Eq)]
pub enum Units {
    /// Its lines.
    Lines,
    /// The fields of its records in this column, counted from 0.
    Column(u32),
}

impl Units {
    /// The lines at 0, else the fields in this column, counted from 1.
    pub fn of(column: u32) -> Units
        ensures { result ≡ units_by column }
    {
        if column == 0 {
            return Units::Lines;
        }
        Units::Column(column - 1)
    }
}

/// Who takes units, one after another, and may stop at one.
pub trait UnitTaker {
    /// From one state to another it was given these units, in order.
    ghost went: { Self → Self → List (List ℕ) → Type 0 };

    /// From one state to another it was given these units, and stopped at the next one, for this fault.
    ghost stopped: { Self → Self → Fault → List (List ℕ) → List ℕ → Type 0 };

    /// What no `take` changes.
    ghost stands_on: { Self → Standing };

    /// Takes the unit of this number, counted from 1, after those that it was given. After an error
    /// it is not used again.
    fn take(&mut self, unit: &[u8], number: u64) -> Result<(), Fault>
        requires short { length unit.now ≤ line_limit }
        requires room { number ≤ most_kept }
        requires behind { (start : _) × (units : List (List ℕ)) × (length units + 1 ≡ number) × went start self.old units }
        ensures went { OnOk result ((start : _) (units : List (List ℕ)) → length units + 1 ≡ number → went start self.old units
            → went start self.new (units ++ unit.now ∷ [])) }
        ensures stopped { IfErr result (λ why. (start : _) (units : List (List ℕ)) → length units + 1 ≡ number → went start self.old units
            → stopped start self.new why units unit.now) }
        ensures fault { IfErr result (IsOfTaker number) }
        ensures stays { stands_on self.new ≡ stands_on self.old };

    /// Takes units that lie in a text, in order, after `before` that it was given. After an error it is
    /// not used again.
    fn take_all(&mut self, text: &[u8], spans: &[Span], before: u64) -> Result<(), Fault>
        requires few { length spans.now ≤ GROUP }
        requires within { AreBehind 0 spans.now text.now }
        requires short { AreWithin line_limit (lines_at spans.now text.now) }
        requires room { before + length spans.now ≤ most_kept }
        requires behind { (start : _) × (units : List (List ℕ)) × (length units ≡ before) × went start self.old units }
        ensures went { OnOk result ((start : _) (units : List (List ℕ)) → length units ≡ before → went start self.old units
            → went start self.new (units ++ lines_at spans.now text.now)) }
        ensures stopped { IfErr result (λ why. (start : _) (units : List (List ℕ)) → length units ≡ before → went start self.old units
            → StopsAmong (stopped start self.new) why units (lines_at spans.now text.now)) }
        ensures stays { stands_on self.new ≡ stands_on self.old }
    {
        let mut number = before;
        'unit: for span in spans {
            number += 1;
            self.take(&text[span.from..span.to], number)?;
        }
        Ok(())
    }
}

/// Gives the units of a source of fewer than `most` bytes to the taker, in order, and returns how
/// many there were. If the taker stops at one, it returns the taker's fault.
pub fn read_units<S: Source, T: UnitTaker>(
    alloc: Global,
    units: Units,
    most: u64,
    source: &mut S,
    taker: &mut T,
) -> Result<u64, Fault>
    requires bound { most ≤ source_limit }
    requires start { T.went taker.old taker.old [] }
    ensures read { Reads (S.last source.new) units most (T.went taker.old taker.new) (T.stopped taker.old taker.new) (S.left source.old) (S.left source.new) result }
    ensures cause { HasCauseIn fault.ReadFault (S.faults source.old) (S.faults source.new) result }
    ensures stays { S.stands_on source.new ≡ S.stands_on source.old }
    ensures taker { T.stands_on taker.new ≡ T.stands_on taker.old }
{
    match units {
        Units::Lines => read_lines(alloc, most, source, taker),
        Units::Column(column) => read_records(alloc, column, most, source, taker),
    }
}

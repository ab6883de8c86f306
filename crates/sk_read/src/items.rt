// The items of a source.
ghost use Rattle.std.specs.Prelude.{◌≡◌, ◌≢◌, ◌≤◌, ◌<◌, ◌+◌, ℕ, List, [], ◌∷◌, ◌++◌, Some, Err, OnOk, IfErr, length, false};
ghost use Rattle.sk_model.specs.Causes.{HasCauseIn};
ghost use Rattle.sk_model.specs.Limits.{source_limit, most_kept};
ghost use Rattle.sk_model.specs.Width.{IsItem};
ghost use Rattle.sk_read.specs.Faults.{IsOfTaker};
ghost use Rattle.sk_read.specs.Items.{Gave, Missed};
ghost use Rattle.sk_read.specs.Reads.{Reads};
ghost use Rattle.sk_read.specs.Units.{units_by};

use crate::fault::Fault;
use crate::kind::Kind;
use crate::units::{UnitTaker, Units, read_units};
use sk_io::Source;
use std::alloc::Global;

/// What is read, how much at most, and how it is fed to a hub.
#[derive(Clone, Copy, Debug, PartialEq, Eq)]
pub struct Intake {
    /// How a unit becomes an item.
    pub kind: Kind,
    /// The units: the lines at 0, else the fields in this column, counted from 1, of the records.
    pub column: u32,
    /// As many units as this make a window full: from 1 to 1,000,000.
    pub window: u32,
    /// Whether each full window is reported.
    pub interim: bool,
    /// Whether the heart propagates next to the updaters, in place of their help, if these are fed in rounds. One
    /// that has a thread for the whole source propagates itself when it is busy.
    pub propagator: bool,
    /// As many bytes as this are too much.
    pub most: u64,
}

impl Intake {
    /// An intake for those who take items one by one, and have no windows.
    pub fn of_items(kind: Kind, column: u32, most: u64) -> Intake
        ensures { result ≡ record { kind = kind; column = column; window = 1; interim = false; propagator = false; most = most } }
    {
        Intake {
            kind,
            column,
            window: 1,
            interim: false,
            propagator: false,
            most,
        }
    }
}

/// Who takes items, one after another.
pub trait Taker {
    /// The lists that it stands for.
    ghost stands_for: { Self → List ℕ → Type 0 };

    /// The numbers that it was made with.
    ghost numbers: { Self → List ℕ };

    /// Takes an item after those of the lists that it stands for.
    fn take(&mut self, item: u64)
        requires item { IsItem item }
        requires room { (items : List ℕ) × (length items < most_kept) × stands_for self.old items }
        ensures stands { (items : List ℕ) → length items < most_kept → stands_for self.old items → stands_for self.new (items ++ item ∷ []) }
        ensures numbers { numbers self.new ≡ numbers self.old };
}

// A taker of items as one of units.
#[derive(Drop)]
struct Items<'a, T: Taker> {
    kind: Kind,
    taker: &'a mut T,
}

impl<T: Taker> UnitTaker for Items<'_, T> {
    ghost went = { λ _ s units. Gave s.kind (T.stands_for s.taker.now) units };

    ghost stopped = { λ _ s fault given unit. Missed s.kind (T.stands_for s.taker.now) fault given unit };

    ghost stands_on = { λ s. record { kind = Some s.kind; borrows = s.taker.ghost_name ∷ []; numbers = T.numbers s.taker.now } };

    #[inline(always)]
    fn take(&mut self, unit: &[u8], number: u64) -> Result<(), Fault> {
        take_unit(self.kind, unit, number, self.taker)
    }
}

/// Gives the items of a source to the taker, in order, and returns how many units there were: lines
/// at column 0, else records. Records have commas and double quotes, and the first is like any other.
/// Of the intake only its kind, its column and how much it takes at most are used.
pub fn read_items<S: Source, T: Taker>(
    alloc: Global,
    intake: &Intake,
    source: &mut S,
    taker: &mut T,
) -> Result<u64, Fault>
    requires bound { intake.now.most ≤ source_limit }
    requires empty { T.stands_for taker.old [] }
    ensures read { Reads (S.last source.new) (units_by intake.now.column) intake.now.most (Gave intake.now.kind (T.stands_for taker.new)) (Missed intake.now.kind (T.stands_for taker.new))
        (S.left source.old) (S.left source.new) result }
    ensures cause { HasCauseIn Fault.ReadFault (S.faults source.old) (S.faults source.new) result }
    ensures writes_nothing { result ≢ Err Fault.WriteFault }
    ensures stays { S.stands_on source.new ≡ S.stands_on source.old }
    ensures numbers { T.numbers taker.new ≡ T.numbers taker.old }
{
    let units = Units::of(intake.column);
    let kind = intake.kind;
    let mut items = Items { kind, taker };
    read_units(alloc, units, intake.most, source, &mut items)
}

// Gives the item of a unit, if it has one, to the taker.
#[inline(always)]
fn take_unit<T: Taker>(kind: Kind, unit: &[u8], number: u64, taker: &mut T) -> Result<(), Fault>
    requires room { number ≤ most_kept }
    requires behind { (units : List (List ℕ)) × (length units + 1 ≡ number) × Gave kind (T.stands_for taker.old) units }
    ensures gave { OnOk result ((units : List (List ℕ)) → length units + 1 ≡ number → Gave kind (T.stands_for taker.old) units
        → Gave kind (T.stands_for taker.new) (units ++ unit.now ∷ [])) }
    ensures missed { IfErr result (λ fault. (units : List (List ℕ)) → length units + 1 ≡ number → Gave kind (T.stands_for taker.old) units
        → Missed kind (T.stands_for taker.new) fault units unit.now) }
    ensures fault { IfErr result (IsOfTaker number) }
    ensures numbers { T.numbers taker.new ≡ T.numbers taker.old }
{
    if unit.is_empty() {
        return Ok(());
    }
    match kind.item(unit) {
        Some(item) => {
            taker.take(item);
            Ok(())
        }
        None => Err(Fault::BadItem(number)),
    }
}

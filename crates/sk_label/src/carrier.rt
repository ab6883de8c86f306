// Labelled lines, read by the reader of units.
ghost use Rattle.std.specs.Prelude.{◌≡◌, ◌≤◌, ℕ, List, [], IfErr, IfOk, OnOk, MatchResult};
ghost use Rattle.sk_model.specs.Causes.{HasCauseIn};
ghost use Rattle.sk_model.specs.Limits.{source_limit};
ghost use Rattle.sk_label.specs.Carrying.{fault_by};
ghost use Rattle.sk_label.specs.Goes.{setting, CountsLines, ReadsTaken, EndsBefore};

use crate::fault::{LabelFault, LineStop};
use crate::taker::LineTaker;
use sk_io::Source;
use sk_read::{Fault, UnitTaker, Units, read_units};
use std::alloc::Global;

// A taker of labelled lines as one of units, and why it stopped.
#[derive(Drop)]
struct Carrier<'t, T: LineTaker> {
    taker: &'t mut T,
    stop: Option<LineStop>,
}

impl<T: LineTaker> UnitTaker for Carrier<'_, T> {
    ghost use Rattle.std.specs.Prelude.{◌∷◌, None};
    ghost use Rattle.sk_read.specs.Standing.{Standing};
    ghost use Rattle.sk_label.specs.Carrying.{shown, Carried, Dropped};

    ghost went = { λ a b lines. Carried (T.went a.taker.now b.taker.now)
        (shown (T.rules a.taker.now) (T.written a.taker.now) (T.faults a.taker.now)) (shown (T.rules b.taker.now) (T.written b.taker.now) (T.faults b.taker.now)) lines };

    ghost stopped = { λ a b why lines line. Dropped
        (shown (T.rules a.taker.now) (T.written a.taker.now) (T.faults a.taker.now)) (shown (T.rules b.taker.now) (T.written b.taker.now) (T.faults b.taker.now)) b.stop why lines line };

    ghost stands_on = { λ c. record (T.stands_on c.taker.now) { borrows = c.taker.ghost_name ∷ (T.stands_on c.taker.now).borrows } };

    #[inline(always)]
    fn take(&mut self, line: &[u8], number: u64) -> Result<(), Fault> {
        match self.taker.take(line) {
            Ok(()) => Ok(()),
            Err(why) => {
                self.stop = Some(why);
                Err(Fault::BadItem(number))
            }
        }
    }
}

/// Gives the lines of a source of fewer than `most` bytes to the taker, in order, and returns how many
/// there were. If the taker stops at one, it returns why, with the number of the line.
pub fn read_labelled<S: Source, T: LineTaker>(
    alloc: Global,
    most: u64,
    source: &mut S,
    taker: &mut T,
) -> Result<u64, LabelFault>
    requires bound { most ≤ source_limit }
    requires start { T.went taker.old taker.old [] }
    ensures read { ReadsTaken (T.rules taker.old) (S.last source.new) most (T.went taker.old taker.new) (setting (S.left source.old) (T.written taker.old)) (setting (S.left source.new) (T.written taker.new)) result }
    ensures count { IfOk result (CountsLines most (S.left source.old) (S.left source.new)) }
    ensures reads { HasCauseIn LabelFault.ReadFault (S.faults source.old) (S.faults source.new) result }
    ensures writes { HasCauseIn LabelFault.WriteFault (T.faults taker.old) (T.faults taker.new) result }
    ensures stays { S.stands_on source.new ≡ S.stands_on source.old }
    ensures taker { T.stands_on taker.new ≡ T.stands_on taker.old }
{
    let mut carrier = Carrier { taker, stop: None };
    read_carried(alloc, most, source, &mut carrier)
}

// The same, with the carrier at hand.
fn read_carried<S: Source, T: LineTaker>(
    alloc: Global,
    most: u64,
    source: &mut S,
    carrier: &mut Carrier<'_, T>,
) -> Result<u64, LabelFault>
    requires bound { most ≤ source_limit }
    requires start { T.went carrier.old.taker.now carrier.old.taker.now [] }
    ensures read { ReadsTaken (T.rules carrier.old.taker.now) (S.last source.new) most (T.went carrier.old.taker.now carrier.new.taker.now)
        (setting (S.left source.old) (T.written carrier.old.taker.now)) (setting (S.left source.new) (T.written carrier.new.taker.now)) result }
    ensures count { IfOk result (CountsLines most (S.left source.old) (S.left source.new)) }
    ensures reads { HasCauseIn LabelFault.ReadFault (S.faults source.old) (S.faults source.new) result }
    ensures writes { HasCauseIn LabelFault.WriteFault (T.faults carrier.old.taker.now) (T.faults carrier.new.taker.now) result }
    ensures stays { S.stands_on source.new ≡ S.stands_on source.old }
    ensures taker { T.stands_on carrier.new.taker.now ≡ T.stands_on carrier.old.taker.now }
    ensures name { carrier.new.taker.ghost_name ≡ carrier.old.taker.ghost_name }
{
    match read_units(alloc, Units::Lines, most, source, carrier) {
        Ok(count) => Ok(count),
        Err(fault) => Err(fault_by(fault, carrier.stop)),
    }
}

// The fault that a fault of units and the reason that a carrier has make.
fn fault_by(fault: Fault, carried: Option<LineStop>) -> LabelFault
    ensures { result ≡ fault_by fault carried }
{
    match fault {
        Fault::ReadFault => LabelFault::ReadFault,
        Fault::LongLine(n) => LabelFault::LongLine(n),
        Fault::TooMuch => LabelFault::TooMuch,
        Fault::BadItem(n) => match carried {
            Some(why) => why.at(n),
            None => LabelFault::OutOfMemory,
        },
        _ => LabelFault::OutOfMemory,
    }
}

//! The lines of estimates and alarms.
ghost use Rattle.std.specs.Prelude.{◌≡◌, ◌<◌, ◌≤◌, ◌++◌, decimal, OnOk, OnErr};
ghost use Rattle.std.specs.Io.KnownBytes.{Appends};
ghost use Rattle.sk_model.specs.Causes.{HasCause, AppendsPart};
ghost use Rattle.sk_lines.specs.Fractions.{estimate_line};
ghost use Rattle.sk_watch.specs.Masks.{most_places};
ghost use Rattle.sk_report.specs.Texts.{at_units, interim_line, alarm_line, alarm_at, alarm_lines};

use sk_io::{Failed, Sink, write_all};
use sk_lines::{ESTIMATE_LINE_LEN, put_decimal, put_estimate_line};

// How many places a mask has.
pub(crate) const PLACES: u32 = 64;

/// Writes the line of an estimate.
pub fn write_estimate<O: Sink>(out: &mut O, estimate: (u128, u64)) -> Result<(), Failed>
    ensures ok { OnOk result (Appends (O.written out.old) (O.written out.new) (estimate_line estimate)) }
    ensures part { OnErr result (AppendsPart (O.written out.old) (O.written out.new) (estimate_line estimate)) }
    ensures cause { HasCause (O.faults out.old) (O.faults out.new) result }
{
    let mut line = [0u8; ESTIMATE_LINE_LEN];
    let len = put_estimate_line(&mut line, estimate.0, estimate.1);
    write_all(out, &line[..len])
}

/// Writes the line of an estimate after n units, and a line for each place of a mask.
pub fn write_interim<O: Sink>(
    out: &mut O,
    units: u64,
    estimate: (u128, u64),
    gone: u64,
) -> Result<(), Failed>
    ensures ok { OnOk result (Appends (O.written out.old) (O.written out.new) (interim_line units estimate ++ alarm_lines gone)) }
    ensures part { OnErr result (AppendsPart (O.written out.old) (O.written out.new) (interim_line units estimate ++ alarm_lines gone)) }
    ensures cause { HasCause (O.faults out.old) (O.faults out.new) result }
{
    write_interim_line(out, units, estimate)?;
    write_alarms(out, gone)
}

// Writes the line of an estimate after n units.
fn write_interim_line<O: Sink>(out: &mut O, units: u64, estimate: (u128, u64)) -> Result<(), Failed>
    ensures ok { OnOk result (Appends (O.written out.old) (O.written out.new) (interim_line units estimate)) }
    ensures part { OnErr result (AppendsPart (O.written out.old) (O.written out.new) (interim_line units estimate)) }
    ensures cause { HasCause (O.faults out.old) (O.faults out.new) result }
{
    write_at(out, units)?;
    write_estimate(out, estimate)
}

/// Writes what stands before a line that is of the first n units alone.
pub fn write_at<O: Sink>(out: &mut O, units: u64) -> Result<(), Failed>
    ensures ok { OnOk result (Appends (O.written out.old) (O.written out.new) (at_units units)) }
    ensures part { OnErr result (AppendsPart (O.written out.old) (O.written out.new) (at_units units)) }
    ensures cause { HasCause (O.faults out.old) (O.faults out.new) result }
{
    write_all(out, b"at ")?;
    write_number(out, units)?;
    write_all(out, b" ")
}

/// Writes the digits of a number.
pub fn write_number<O: Sink>(out: &mut O, number: u64) -> Result<(), Failed>
    ensures ok { OnOk result (Appends (O.written out.old) (O.written out.new) (decimal number)) }
    ensures part { OnErr result (AppendsPart (O.written out.old) (O.written out.new) (decimal number)) }
    ensures cause { HasCause (O.faults out.old) (O.faults out.new) result }
{
    let mut digits = [0u8; 20];
    let len = put_decimal(&mut digits, number);
    write_all(out, &digits[..len])
}

/// Writes a line for each place of a mask.
pub fn write_alarms<O: Sink>(out: &mut O, gone: u64) -> Result<(), Failed>
    ensures ok { OnOk result (Appends (O.written out.old) (O.written out.new) (alarm_lines gone)) }
    ensures part { OnErr result (AppendsPart (O.written out.old) (O.written out.new) (alarm_lines gone)) }
    ensures cause { HasCause (O.faults out.old) (O.faults out.new) result }
{
    'place: for place in 0..PLACES {
        write_place(out, gone, place)?;
    }
    Ok(())
}

// Writes a line for this place, if the mask has it.
fn write_place<O: Sink>(out: &mut O, gone: u64, place: u32) -> Result<(), Failed>
    requires { place < most_places }
    ensures ok { OnOk result (Appends (O.written out.old) (O.written out.new) (alarm_at gone place)) }
    ensures part { OnErr result (AppendsPart (O.written out.old) (O.written out.new) (alarm_at gone place)) }
    ensures cause { HasCause (O.faults out.old) (O.faults out.new) result }
{
    if gone >> place & 1 == 1 {
        write_alarm(out, u64::from(place + 1))
    } else {
        Ok(())
    }
}

// Writes the line of an alarm.
fn write_alarm<O: Sink>(out: &mut O, number: u64) -> Result<(), Failed>
    ensures ok { OnOk result (Appends (O.written out.old) (O.written out.new) (alarm_line number)) }
    ensures part { OnErr result (AppendsPart (O.written out.old) (O.written out.new) (alarm_line number)) }
    ensures cause { HasCause (O.faults out.old) (O.faults out.new) result }
{
    write_all(out, b"alarm ")?;
    write_number(out, number)?;
    write_all(out, b"\n")
}

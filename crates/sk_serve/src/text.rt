//! The lines of a server.
ghost use Rattle.std.specs.Prelude.{◌++◌, OnOk, OnErr};
ghost use Rattle.std.specs.Io.KnownBytes.{Appends};
ghost use Rattle.sk_model.specs.Causes.{HasCause, AppendsPart};
ghost use Rattle.sk_lines.specs.Fractions.{estimate_line};
ghost use Rattle.sk_report.specs.Texts.{alarm_lines};
ghost use Rattle.sk_serve.specs.Texts.{end_text, session_line, session_lines};

use sk_io::{Failed, Sink, write_all};
use sk_line::End;
use sk_report::{write_alarms, write_estimate, write_number};

/// Writes a line for each session, for each alarm that went off, and that of an estimate.
pub(crate) fn write_served<O: Sink>(
    out: &mut O,
    ends: &[End],
    gone: u64,
    estimate: (u128, u64),
) -> Result<(), Failed>
    ensures ok { OnOk result (Appends (O.written out.old) (O.written out.new) (session_lines 0 ends.now ++ (alarm_lines gone ++ estimate_line estimate))) }
    ensures part { OnErr result (AppendsPart (O.written out.old) (O.written out.new) (session_lines 0 ends.now ++ (alarm_lines gone ++ estimate_line estimate))) }
    ensures cause { HasCause (O.faults out.old) (O.faults out.new) result }
{
    write_sessions(out, ends)?;
    write_alarms(out, gone)?;
    write_estimate(out, estimate)
}

// Writes a line for each session, in order.
fn write_sessions<O: Sink>(out: &mut O, ends: &[End]) -> Result<(), Failed>
    ensures ok { OnOk result (Appends (O.written out.old) (O.written out.new) (session_lines 0 ends.now)) }
    ensures part { OnErr result (AppendsPart (O.written out.old) (O.written out.new) (session_lines 0 ends.now)) }
    ensures cause { HasCause (O.faults out.old) (O.faults out.new) result }
{
    'session: for i in 0..ends.len() {
        write_session(out, i as u64, ends[i])?;
    }
    Ok(())
}

// Writes the line of a session.
fn write_session<O: Sink>(out: &mut O, i: u64, end: End) -> Result<(), Failed>
    ensures ok { OnOk result (Appends (O.written out.old) (O.written out.new) (session_line i end)) }
    ensures part { OnErr result (AppendsPart (O.written out.old) (O.written out.new) (session_line i end)) }
    ensures cause { HasCause (O.faults out.old) (O.faults out.new) result }
{
    write_all(out, b"session ")?;
    write_number(out, i)?;
    write_all(out, b" ")?;
    write_end_text(out, end)?;
    write_all(out, b"\n")
}

// Writes how a session ended.
fn write_end_text<O: Sink>(out: &mut O, end: End) -> Result<(), Failed>
    ensures ok { OnOk result (Appends (O.written out.old) (O.written out.new) (end_text end)) }
    ensures part { OnErr result (AppendsPart (O.written out.old) (O.written out.new) (end_text end)) }
    ensures cause { HasCause (O.faults out.old) (O.faults out.new) result }
{
    match end {
        End::Quit => write_all(out, b"quit"),
        End::Closed => write_all(out, b"closed"),
        End::LinkFault => write_all(out, b"fault"),
        End::Long(line) => write_long(out, line),
        End::TooMuch => write_all(out, b"much"),
        End::OutOfMemory => Ok(()),
    }
}

// Writes that the request with this number was too long.
fn write_long<O: Sink>(out: &mut O, line: u64) -> Result<(), Failed>
    ensures ok { OnOk result (Appends (O.written out.old) (O.written out.new) (end_text (End.Long line))) }
    ensures part { OnErr result (AppendsPart (O.written out.old) (O.written out.new) (end_text (End.Long line))) }
    ensures cause { HasCause (O.faults out.old) (O.faults out.new) result }
{
    write_all(out, b"long ")?;
    write_number(out, line)
}

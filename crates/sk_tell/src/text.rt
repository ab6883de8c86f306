//! A number with a word before it.
ghost use Rattle.std.specs.Prelude.{OnOk, OnErr};
ghost use Rattle.std.specs.Io.KnownBytes.{Appends};
ghost use Rattle.sk_model.specs.Causes.{HasCause, AppendsPart};
ghost use Rattle.sk_tell.specs.Texts.{labelled};

use sk_io::{Failed, Sink, write_all};
use sk_report::write_number;

/// Writes a word, and a number after it.
pub fn write_labelled<O: Sink>(out: &mut O, label: &[u8], number: u64) -> Result<(), Failed>
    ensures ok { OnOk result (Appends (O.written out.old) (O.written out.new) (labelled label.now number)) }
    ensures part { OnErr result (AppendsPart (O.written out.old) (O.written out.new) (labelled label.now number)) }
    ensures cause { HasCause (O.faults out.old) (O.faults out.new) result }
{
    write_all(out, label)?;
    write_number(out, number)
}

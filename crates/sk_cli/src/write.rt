// The write fault of a text.
ghost use Rattle.std.specs.Prelude.{◌≡◌, OnOk, OnErr, IfErr};
ghost use Rattle.std.specs.Io.KnownBytes.{Appends};
ghost use Rattle.sk_model.specs.Causes.{HasCause, AppendsPart};

use crate::fault::Fault;
use sk_io::{Sink, write_all};

/// Writes all of a text, or a prefix of it that is not all, and then returns `WriteFault`.
pub fn write_text<O: Sink>(out: &mut O, text: &[u8]) -> Result<(), Fault>
    ensures ok { OnOk result (Appends (O.written out.old) (O.written out.new) text.now) }
    ensures part { OnErr result (AppendsPart (O.written out.old) (O.written out.new) text.now) }
    ensures cause { HasCause (O.faults out.old) (O.faults out.new) result }
    ensures err { IfErr result (λ fault. fault ≡ Fault.WriteFault) }
{
    write_all(out, text).map_err(|_| Fault::WriteFault)
}

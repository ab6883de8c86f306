// The line of a pane.
ghost use Rattle.std.specs.Prelude.{◌≡◌, ◌++◌, OnOk, OnErr, codes, decimal};
ghost use Rattle.std.specs.Io.KnownBytes.{Appends};
ghost use Rattle.sk_model.specs.Causes.{AppendsPart, HasCause};
ghost use Rattle.sk_model.specs.Limits.{least_k, most_k, IsFrom};
ghost use Rattle.sk_panes.specs.Panes.{pane_text};
ghost use Rattle.sk_panes.specs.Running.{HasReply, reply_text};

use crate::running::Pane;
use sk_io::{Failed, Sink, write_all};
use sk_report::{write_estimate, write_number};

// Writes a pane.
#[inline(never)]
pub(crate) fn write_reply<O: Sink>(out: &mut O, k: u32, pane: Pane) -> Result<(), Failed>
    requires k { IsFrom least_k most_k k }
    requires reply { HasReply k pane }
    ensures ok { OnOk result (Appends (O.written out.old) (O.written out.new) (reply_text k pane)) }
    ensures part { OnErr result (AppendsPart (O.written out.old) (O.written out.new) (reply_text k pane)) }
    ensures cause { HasCause (O.faults out.old) (O.faults out.new) result }
{
    write_pane(out, pane.interval, pane.reply.fraction(k))
}

// Writes the line of pane c with an estimate.
fn write_pane<O: Sink>(out: &mut O, c: u64, estimate: (u128, u64)) -> Result<(), Failed>
    ensures ok { OnOk result (Appends (O.written out.old) (O.written out.new) (pane_text c estimate)) }
    ensures part { OnErr result (AppendsPart (O.written out.old) (O.written out.new) (pane_text c estimate)) }
    ensures cause { HasCause (O.faults out.old) (O.faults out.new) result }
{
    write_all(out, b"pane ")?;
    write_number(out, c)?;
    write_all(out, b" ")?;
    write_estimate(out, estimate)
}

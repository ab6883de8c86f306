//! The last line, and the handles that are left.
ghost use Rattle.std.specs.Prelude.{◌≡◌, ◌≢◌, ℕ, List, OnOk, OnErr, IfOk, IfErr};
ghost use Rattle.std.specs.Io.KnownBytes.{Appends};
ghost use Rattle.sk_model.specs.Causes.{AppendsPart, HasCause, HasCauseIn};
ghost use Rattle.sk_feed.specs.Hubs.{hub_of, IsHub};
ghost use Rattle.sk_snap.specs.History.{name_of};
ghost use Rattle.sk_tell.specs.Finishing.{Finishes, StopsShort};

use crate::line::Line;
use crate::telling::Handles;
use sk_hub::Opened;
use sk_io::Sink;
use sk_learn::close;
use sk_read::Fault;
use sk_snap::{Sequential, VersionReader, Versioned};
use std::sync::Wait;

// Closes a hub, and writes the line of all that its updaters kept.
pub(crate) fn finish<S: Sequential, Q: Line<S>, O: Sink, R: Wait, W: Wait + Drop>(
    rt: &R,
    opened: Opened<Versioned<S, W>>,
    reader: VersionReader<S>,
    query: Q,
    out: &mut O,
) -> Result<Handles<S, W>, Fault>
    requires hub { IsHub (hub_of opened) }
    requires name { opened.heart.view.name ≡ name_of reader.known.book }
    ensures finishes { IfOk result (λ handles. Finishes Q.line Q.lower Q.upper query (hub_of opened) reader (Appends (O.written out.old) (O.written out.new)) handles.0 handles.1) }
    ensures short { IfErr result (StopsShort Q.line Q.lower Q.upper query (hub_of opened) reader (O.written out.old) (O.written out.new)) }
    ensures quiet { IfErr result (λ fault. fault ≢ Fault.WriteFault → out.new ≡ out.old) }
    ensures cause { HasCauseIn Fault.WriteFault (O.faults out.old) (O.faults out.new) result }
    ensures others { IfErr result (λ fault. fault ≢ Fault.ReadFault) }
{
    let Opened {
        mut heart,
        mut updaters,
        token: _,
    } = opened;
    let mut reader = reader;
    let answer = close(rt, &mut heart, &mut updaters, &mut reader, query)?;
    write_last(out, query, answer)?;
    Ok((heart, reader))
}

// Drops the handles of a hub that was not fed to its end.
pub(crate) fn let_go<S: Sequential, W: Wait + Drop>(
    opened: Opened<Versioned<S, W>>,
    reader: VersionReader<S>,
    fault: Fault,
) -> Fault
    ensures { result ≡ fault }
{
    drop(opened);
    drop(reader);
    fault
}

// Writes the line that is due last.
fn write_last<S: Sequential, Q: Line<S>, O: Sink>(
    out: &mut O,
    query: Q,
    answer: Q::Answer,
) -> Result<(), Fault>
    ensures ok { (numbers items : List ℕ) → Q.gives query numbers items answer
        → OnOk result (Appends (O.written out.old) (O.written out.new) (Q.line query numbers items)) }
    ensures part { (numbers items : List ℕ) → Q.gives query numbers items answer
        → OnErr result (AppendsPart (O.written out.old) (O.written out.new) (Q.line query numbers items)) }
    ensures fault { IfErr result (λ fault. fault ≡ Fault.WriteFault) }
    ensures cause { HasCause (O.faults out.old) (O.faults out.new) result }
{
    query.write(answer, out).map_err(|_| Fault::WriteFault)
}

//! The report of an interim line.
ghost use Rattle.std.specs.Prelude.{◌≡◌, ℕ, List, OnOk, OnErr, IfErr};
ghost use Rattle.std.specs.Io.KnownBytes.{Appends};
ghost use Rattle.sk_model.specs.Causes.{AppendsPart, HasCause, HasCauseIn};
ghost use Rattle.sk_tell.specs.Texts.{interim_line};

use crate::line::Line;
use sk_hub::Opened;
use sk_ingest::{Report, Stop};
use sk_io::{Failed, Sink};
use sk_learn::learn_all;
use sk_report::write_at;
use sk_snap::{Sequential, VersionReader, Versioned};
use std::sync::Wait;

/// Writes a line after each full window, of what the updaters know by then.
#[derive(Drop)]
pub(crate) struct Interim<'o, 'p, 'q, 'r, S: Sequential, Q: Line<S>, O: Sink, R: Wait> {
    pub(crate) rt: &'r R,
    pub(crate) query: &'p Q,
    pub(crate) out: &'o mut O,
    pub(crate) reader: &'q mut VersionReader<S>,
}

impl<S: Sequential, Q: Line<S>, O: Sink, R: Wait, W: Wait + Drop> Report<Versioned<S, W>>
    for Interim<'_, '_, '_, '_, S, Q, O, R> {
    ghost use Rattle.std.specs.Prelude.{[], ◌∷◌, Some};
    ghost use Rattle.sk_snap.specs.History.{name_of};
    ghost use Rattle.sk_tell.specs.Reports.{showing, Reports, BreaksBy};

    ghost faults = { λ r. O.faults r.out.now };

    ghost reports = { λ r line a b s. Reports Q.line Q.lower Q.upper (showing r.query.now r.reader.now (O.written r.out.now)) line a b
        (showing s.query.now s.reader.now (O.written s.out.now)) };

    ghost breaks = { λ r stop line a b s. BreaksBy Q.line Q.lower Q.upper (showing r.query.now r.reader.now (O.written r.out.now)) stop line a b
        (showing s.query.now s.reader.now (O.written s.out.now)) };

    ghost stands_on = { λ r. r.out.ghost_name ∷ r.reader.ghost_name ∷ [] };

    ghost sketch = { λ r. Some (name_of r.reader.now.known.book) };

    fn at(&mut self, line: u64, opened: &mut Opened<Versioned<S, W>>) -> Result<(), Stop> {
        learn_all(self.reader, opened.updaters.as_mut_slice());
        let query = *self.query;
        let answer = self.reader.read(self.rt, query);
        write_or_stop(self.out, line, query, answer)
    }
}

// Writes the line of what a query returned, after n units.
fn write_interim<S: Sequential, Q: Line<S>, O: Sink>(
    out: &mut O,
    units: u64,
    query: Q,
    answer: Q::Answer,
) -> Result<(), Failed>
    ensures ok { (numbers items : List ℕ) → Q.gives query numbers items answer
        → OnOk result (Appends (O.written out.old) (O.written out.new) (interim_line units (Q.line query numbers items))) }
    ensures part { (numbers items : List ℕ) → Q.gives query numbers items answer
        → OnErr result (AppendsPart (O.written out.old) (O.written out.new) (interim_line units (Q.line query numbers items))) }
    ensures cause { HasCause (O.faults out.old) (O.faults out.new) result }
{
    write_at(out, units)?;
    query.write(answer, out)
}

// The same, or stops if that fails.
fn write_or_stop<S: Sequential, Q: Line<S>, O: Sink>(
    out: &mut O,
    line: u64,
    query: Q,
    answer: Q::Answer,
) -> Result<(), Stop>
    ensures ok { (numbers items : List ℕ) → Q.gives query numbers items answer
        → OnOk result (Appends (O.written out.old) (O.written out.new) (interim_line line (Q.line query numbers items))) }
    ensures part { (numbers items : List ℕ) → Q.gives query numbers items answer
        → OnErr result (AppendsPart (O.written out.old) (O.written out.new) (interim_line line (Q.line query numbers items))) }
    ensures stop { IfErr result (λ stop. stop ≡ Stop.Failed) }
    ensures cause { HasCauseIn Stop.Failed (O.faults out.old) (O.faults out.new) result }
{
    write_interim(out, line, query, answer).map_err(|_| Stop::Failed)
}

//! The tally that is asked for, and its line.
ghost use Rattle.std.specs.Prelude.{◌≡◌, OnOk, OnErr};
ghost use Rattle.std.specs.Io.KnownBytes.{Appends};
ghost use Rattle.sk_model.specs.Causes.{HasCause, AppendsPart};
ghost use Rattle.sk_tally.specs.Texts.{count_line};

use sk_cms::{CountMin, Least, Tally};
use sk_io::{Failed, Sink, write_all};
use sk_snap::Query;
use sk_tell::{Line, write_labelled};

/// The query of how often an item stands in the list.
#[derive(Clone, Copy, Debug, PartialEq, Eq)]
pub(crate) struct TallyOf {
    pub(crate) item: u64,
}

impl Query<CountMin> for TallyOf {
    ghost use Rattle.std.specs.Prelude.{⊤};
    ghost use Rattle.sk_cms.specs.Tallies.{rows_of, width_of, IsTally};

    type Answer = Tally;

    ghost fits = { λ _ _. ⊤ };

    ghost gives = { λ q numbers items t. IsTally q.item (rows_of numbers) (width_of numbers) items t.n t.least };

    fn ask(self, sketch: &CountMin, count: u64) -> Tally {
        Least { x: self.item }.ask(sketch, count)
    }
}

impl Line<CountMin> for TallyOf {
    ghost use Rattle.sk_cms.specs.Estimate.{least_of, times};
    ghost use Rattle.sk_cms.specs.Tallies.{rows_of, width_of};
    ghost use Rattle.sk_tally.specs.Texts.{line_by, at_least_so};

    ghost line = { λ q numbers items. line_by (rows_of numbers) (width_of numbers) q.item items };

    ghost lower = { λ q _ items. times q.item items };

    ghost upper = { λ q numbers items. least_of (rows_of numbers) (width_of numbers) q.item items };

    fn write<O: Sink>(self, tally: Tally, out: &mut O) -> Result<(), Failed> {
        write_line(out, tally)
    }

    ghost fits_all = { λ _ _. tt };

    ghost means = { λ q numbers items t is. at_least_so (rows_of numbers) (width_of numbers) q.item items t.n t.least is };
}

// Writes how many items there are, and how often one of them stands among them.
pub(crate) fn write_line<O: Sink>(out: &mut O, tally: Tally) -> Result<(), Failed>
    ensures ok { OnOk result (Appends (O.written out.old) (O.written out.new) (count_line tally.n tally.least)) }
    ensures part { OnErr result (AppendsPart (O.written out.old) (O.written out.new) (count_line tally.n tally.least)) }
    ensures cause { HasCause (O.faults out.old) (O.faults out.new) result }
{
    write_labelled(out, b"n ", tally.n)?;
    write_labelled(out, b" item ", tally.least)?;
    write_all(out, b"\n")
}

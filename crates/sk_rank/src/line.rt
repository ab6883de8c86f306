//! The rank that is asked for, and its line.
ghost use Rattle.std.specs.Prelude.{◌≡◌, OnOk, OnErr};
ghost use Rattle.std.specs.Io.KnownBytes.{Appends};
ghost use Rattle.sk_model.specs.Causes.{HasCause, AppendsPart};
ghost use Rattle.sk_rank.specs.Texts.{told_line};

use sk_io::{Failed, Sink, write_all};
use sk_quant::Quant;
use sk_snap::{Below, Query, Rank};
use sk_tell::{Line, write_labelled};

/// The query of an item's rank: how many items are below it.
#[derive(Clone, Copy, Debug, PartialEq, Eq)]
pub(crate) struct RankOf {
    pub(crate) at: u64,
}

impl Query<Quant> for RankOf {
    ghost use Rattle.std.specs.Prelude.{⊤};
    ghost use Rattle.sk_compose.specs.Numbers.{k_of};
    ghost use Rattle.sk_snap.specs.Quants.{key_of, IsRank};

    type Answer = Rank;

    ghost fits = { λ _ _. ⊤ };

    ghost gives = { λ q numbers items r. IsRank q.at (k_of numbers) (key_of numbers) items
        r.n r.below r.within };

    fn ask(self, sketch: &Quant, count: u64) -> Rank {
        Below { x: self.at }.ask(sketch, count)
    }
}

impl Line<Quant> for RankOf {
    ghost use Rattle.std.specs.Prelude.{length};
    ghost use Rattle.sk_compose.specs.Numbers.{k_of};
    ghost use Rattle.sk_quant.specs.Ranks.{rank_error};
    ghost use Rattle.sk_snap.specs.Quants.{key_of};
    ghost use Rattle.sk_rank.specs.Nearness.{error_in, near_so};
    ghost use Rattle.sk_rank.specs.Texts.{line_by};

    ghost line = { λ q numbers items. line_by q.at (k_of numbers) (key_of numbers) items };

    ghost lower = { λ q numbers items. error_in q.at (k_of numbers) (key_of numbers) items };

    ghost upper = { λ _ numbers items. rank_error (length items) (k_of numbers) };

    fn write<O: Sink>(self, rank: Rank, out: &mut O) -> Result<(), Failed> {
        write_line(out, rank)
    }

    ghost fits_all = { λ _ _. tt };

    ghost means = { λ q numbers items r is. near_so q.at (k_of numbers) (key_of numbers) items r.n r.below r.within is };
}

// Writes how many items there are, how many of them lie below a number, and by how much that may be off.
fn write_line<O: Sink>(out: &mut O, rank: Rank) -> Result<(), Failed>
    ensures ok { OnOk result (Appends (O.written out.old) (O.written out.new) (told_line rank.n rank.below rank.within)) }
    ensures part { OnErr result (AppendsPart (O.written out.old) (O.written out.new) (told_line rank.n rank.below rank.within)) }
    ensures cause { HasCause (O.faults out.old) (O.faults out.new) result }
{
    write_labelled(out, b"n ", rank.n)?;
    write_labelled(out, b" below ", rank.below)?;
    write_labelled(out, b" within ", rank.within)?;
    write_all(out, b"\n")
}

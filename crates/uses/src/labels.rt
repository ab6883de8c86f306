//! Labelled lines, and what an operator would say of each end of their reading.
ghost use Rattle.std.specs.Prelude.{[], ◌≡◌, ◌≤◌, true, length, IfSome, IfNone};
ghost use Rattle.sk_model.specs.Causes.{HasCauseIn};
ghost use Rattle.sk_model.specs.Limits.{source_limit};
ghost use Rattle.sk_label.specs.Labels.{is_labelled, label_of};
ghost use Rattle.uses.specs.Said.{Says};

use sk_io::Source;
use sk_label::{LabelFault, LineTaker, read_labelled, split_short};
use sk_model::limits::SOURCE_LIMIT;
use std::alloc::Global;

/// Gives the lines of a source to a taker. If the bytes of the source are known, they alone decide how that ends, but
/// for memory and calls that fail: whose fault it is can be said of the text.
pub fn read_to_blame<S: Source, T: LineTaker>(
    alloc: Global,
    source: &mut S,
    taker: &mut T,
) -> Result<u64, LabelFault>
    requires start { T.went taker.old taker.old [] }
    ensures says { IfSome (S.left source.old) (λ text. Says (T.rules taker.old) source_limit text result) }
    ensures reads { HasCauseIn LabelFault.ReadFault (S.faults source.old) (S.faults source.new) result }
    ensures writes { HasCauseIn LabelFault.WriteFault (T.faults taker.old) (T.faults taker.new) result }
{
    read_labelled(alloc, SOURCE_LIMIT, source, taker)
}

/// The label of a line. Of 16 bytes and more only a line that has none, or a label of as many, gives `None`.
pub fn short_label(line: &[u8]) -> Option<&[u8]>
    ensures label { IfSome result (λ label. label.now ≡ label_of line.now) }
    ensures none { IfNone result (16 ≤ length line.now → is_labelled line.now ≡ true → 16 ≤ length (label_of line.now)) }
{
    let parts = split_short(line, 0, line.len())?;
    Some(parts.label)
}

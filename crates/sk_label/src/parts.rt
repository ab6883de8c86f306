// The two parts of a line.
ghost use Rattle.std.specs.Prelude.{◌≡◌, ◌≤◌, ◌+◌, true, length, slice_range, is_some, IfSome, IfNone};
ghost use Rattle.std.specs.List.{position_or_len};
ghost use Rattle.sk_label.specs.Labels.{is_space, label_of, item_text_of, is_labelled};

use crate::spaces::{first_space, first_space_in};

/// A line in two parts.
#[derive(Clone, Copy)]
pub struct Parts<'a> {
    /// All bytes before its first space.
    pub label: &'a [u8],
    /// All bytes after its first space.
    pub item_text: &'a [u8],
}

/// The two parts of a line, or `None` if one of them has no byte, or the line no space.
#[inline(always)]
pub fn split(line: &[u8]) -> Option<Parts<'_>>
    ensures form { is_some result ≡ is_labelled line.now }
    ensures label { IfSome result (λ parts. parts.label.now ≡ label_of line.now) }
    ensures item { IfSome result (λ parts. parts.item_text.now ≡ item_text_of line.now) }
{
    split_at(line, first_space(line))
}

/// The two parts of a line that lies in a text from one place up to another, if its label has fewer than 16 bytes, and the
/// text has 16 from its start on: that takes one comparison. Else `None`, as for a line that is none of two parts.
#[inline(always)]
pub fn split_short(text: &[u8], from: usize, to: usize) -> Option<Parts<'_>>
    requires order { from ≤ to }
    requires within { to ≤ length text.now }
    ensures form { IfSome result (λ _. is_labelled (slice_range text.now from to) ≡ true) }
    ensures label { IfSome result (λ parts. parts.label.now ≡ label_of (slice_range text.now from to)) }
    ensures item { IfSome result (λ parts. parts.item_text.now ≡ item_text_of (slice_range text.now from to)) }
    ensures none { IfNone result (from + 16 ≤ length text.now → is_labelled (slice_range text.now from to) ≡ true
        → 16 ≤ length (label_of (slice_range text.now from to))) }
{
    let at = first_space_in(text, from, to)?;
    split_at(&text[from..to], at)
}

// The two parts of a line whose first space stands at this place.
#[inline(always)]
fn split_at(line: &[u8], at: usize) -> Option<Parts<'_>>
    requires place { at ≡ position_or_len is_space line.now }
    requires within { at ≤ length line.now }
    ensures form { is_some result ≡ is_labelled line.now }
    ensures label { IfSome result (λ parts. parts.label.now ≡ label_of line.now) }
    ensures item { IfSome result (λ parts. parts.item_text.now ≡ item_text_of line.now) }
{
    if at == 0 || line.len() <= at + 1 {
        return None;
    }
    Some(Parts {
        label: &line[..at],
        item_text: &line[at + 1..],
    })
}

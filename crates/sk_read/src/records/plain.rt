// The lines of a text with no quote: each that is not empty is a record, cut at its commas. LF and CR end them
// alike, so between CR and LF is an empty one.
ghost use Rattle.std.specs.Prelude.{◌≡◌, ◌≢◌, ◌↔◌, ◌<◌, ◌≤◌, ◌+◌, ◌++◌, ◌∷◌, ◌^◌, ℕ, List, [], All, length, true, slice_index, slice_range};
ghost use Rattle.sk_read.specs.Records.{Row};
ghost use Rattle.sk_read.specs.Delimiters.{Knows};
ghost use Rattle.sk_read.specs.PlainLines.{AreFields, IsLine};

use crate::records::delimiters::{Ahead, next_delimiter};
use memchr::memchr;
use sk_lines::Span;

// Fields of a record: how many, and where the one in a column lies, once there is one.
#[derive(Clone, Copy)]
pub(crate) struct Fields {
    pub(crate) width: usize,
    pub(crate) field: Span,
}

// A line: where its LF or CR is or the text ends, its fields, and what is known of the text after it.
#[derive(Clone, Copy)]
pub(crate) struct Line {
    pub(crate) end: usize,
    pub(crate) fields: Fields,
    pub(crate) ahead: Ahead,
}

impl Fields {
    const NONE: Fields = Fields {
        width: 0,
        field: Span::EMPTY,
    };

    // These fields and one more.
    #[inline(always)]
    fn and(self, column: usize, from: usize, to: usize) -> Fields
        requires room { self.width + 1 < 2 ^ 64 }
        requires order { from ≤ to }
        ensures { (text : List ℕ) (row : Row) → to ≤ length text → AreFields column text row self
            → AreFields column text (row ++ slice_range text from to ∷ []) result }
    {
        Fields {
            width: self.width + 1,
            field: if self.width == column {
                Span { from, to }
            } else {
                self.field
            },
        }
    }
}

// Whether a text has no quote.
pub(crate) fn is_plain(text: &[u8]) -> bool
    ensures { (result ≡ true) ↔ All (λ byte. byte ≢ 34) text.now }
{
    memchr(b'"', text).is_none()
}

// The line at a place, and its field in a column.
#[inline(always)]
pub(crate) fn cut_line(text: &[u8], start: usize, column: usize, ahead: Ahead) -> Line
    requires plain { All (λ byte. byte ≢ 34) text.now }
    requires known { Knows text.now start ahead }
    ensures line { IsLine column text.now start result }
    ensures known { result.end < length text.now → Knows text.now (result.end + 1) result.ahead }
{
    let mut at = start;
    let (mut place, mut ahead) = next_delimiter(text, at, ahead);
    let mut fields = Fields::NONE;
    'comma: while place < text.len() && text[place] == b',' {
        fields = fields.and(column, at, place);
        at = place + 1;
        (place, ahead) = next_delimiter(text, at, ahead);
    }
    Line {
        end: place,
        fields: fields.and(column, at, place),
        ahead,
    }
}

//! The lines of a window, one after another.
ghost use Rattle.std.specs.Prelude.{◌≡◌, ◌<◌, ◌≤◌, ◌++◌, length, slice_range, slice_index_or, take, drop, [], IfSome};
ghost use Rattle.sk_lines.specs.Spans.{AreBehind, lines_at};
ghost use Rattle.sk_fill.specs.Windows.{item_in};
ghost use Rattle.sk_model.specs.Width.{IsItem};

use crate::page::PageLines;
use sk_lines::{GROUP, Span};
use sk_read::Kind;
use std::marker::Model;

/// Lines of a window, one after another.
#[derive(Drop)]
pub struct WindowLines<'a> {
    // the lines of a page that are left come first
    page: PageLines<'a>,
    left: usize,
    // and then those that lie in a text
    text: &'a [u8],
    spans: &'a [Span],
}

impl<'a> Model for WindowLines<'a> {
    ghost use Rattle.std.specs.Prelude.{◌≡◌, ◌++◌, length};
    ghost use Rattle.sk_lines.specs.Spans.{AreBehind, lines_at};
    ghost use Rattle.sk_fill.specs.Windows.{WindowLinesState};

    ghost Value = { WindowLinesState };

    ghost view = { λ w. record { rest = w.page.rest ++ lines_at w.spans.now w.text.now } };

    ghost invariant = { λ w. (w.left ≡ length w.page.rest) × AreBehind 0 w.spans.now w.text.now };
}

impl<'a> WindowLines<'a> {
    // The lines that are left of a page, and then others.
    pub(crate) fn of(
        page: PageLines<'a>,
        left: usize,
        text: &'a [u8],
        spans: &'a [Span],
    ) -> WindowLines<'a>
        requires left { left ≡ length page.rest }
        requires within { AreBehind 0 spans.now text.now }
        ensures { result.rest ≡ page.entry.rest ++ lines_at spans.now text.now }
    {
        WindowLines {
            page,
            left,
            text,
            spans,
        }
    }

    /// Moves on, and gives the next line.
    #[inline(always)]
    pub fn next_line(&mut self) -> &'a [u8]
        requires { 0 < length self.old.rest }
        ensures line { result.now ≡ slice_index_or self.old.rest 0 [] }
        ensures rest { self.new.rest ≡ drop 1 self.old.rest }
    {
        let (text, span) = self.next_place();
        &text[span.from..span.to]
    }

    /// Moves on, and gives the next line's item: none if it is empty, or has to spell a number and does not.
    #[inline(always)]
    pub fn next_item(&mut self, kind: Kind) -> Option<u64>
        requires { 0 < length self.old.rest }
        ensures value { result ≡ item_in kind (slice_index_or self.old.rest 0 []) }
        ensures below { IfSome result IsItem }
        ensures rest { self.new.rest ≡ drop 1 self.old.rest }
    {
        let (text, span) = self.next_place();
        item_at(kind, text, span)
    }

    /// Moves on by some of the next lines, at most `most`, writes to the start of `spans` where they lie in a text,
    /// and returns that text and how many they are.
    pub fn next_lines(&mut self, spans: &mut [Span; GROUP], most: usize) -> (&'a [u8], usize)
        requires some { 0 < length self.old.rest }
        requires wanted { 0 < most }
        ensures few { result.1 ≤ GROUP }
        ensures most { result.1 ≤ most }
        ensures some { 0 < result.1 }
        ensures within { AreBehind 0 (take result.1 spans.new) result.0.now }
        ensures lines { self.old.rest ≡ lines_at (take result.1 spans.new) result.0.now ++ self.new.rest }
    {
        if self.left > 0 {
            let count = self.page.next_lines(spans, most);
            self.left -= count;
            return (self.page.text(), count);
        }
        let count = self.spans.len().min(most).min(GROUP);
        spans[..count].copy_from_slice(&self.spans[..count]);
        self.spans = &self.spans[count..];
        (self.text, count)
    }

    // Moves on, and returns where the next line lies.
    #[inline(always)]
    fn next_place(&mut self) -> (&'a [u8], Span)
        requires { 0 < length self.old.rest }
        ensures order { result.1.from ≤ result.1.to }
        ensures within { result.1.to ≤ length result.0.now }
        ensures line { slice_range result.0.now result.1.from result.1.to ≡ slice_index_or self.old.rest 0 [] }
        ensures rest { self.new.rest ≡ drop 1 self.old.rest }
    {
        if self.left > 0 {
            self.left -= 1;
            let span = self.page.next_line();
            return (self.page.text(), span);
        }
        let span = self.spans[0];
        self.spans = &self.spans[1..];
        (self.text, span)
    }
}

// The item of a line that lies in a text: none if it is empty, or has to spell a number and does not.
#[inline(always)]
pub(crate) fn item_at(kind: Kind, text: &[u8], span: Span) -> Option<u64>
    requires order { span.from ≤ span.to }
    requires within { span.to ≤ length text.now }
    ensures value { result ≡ item_in kind (slice_range text.now span.from span.to) }
    ensures below { IfSome result IsItem }
{
    if span.from == span.to {
        None
    } else {
        kind.item_at(text, span)
    }
}

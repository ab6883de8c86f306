//! A window: lines that are kept until they are fed.
ghost use Rattle.std.specs.Prelude.{◌≡◌, ◌<◌, ◌≤◌, ◌+◌, ◌++◌, ◌∷◌, ◌==◌, ℕ, List, [], ◌-◌, length, take, drop, slice_index_or, slice_range, true, false, OnOk, OnErr, IfOk, IfSome, IfNone};
ghost use Rattle.std.specs.List.{concat};
ghost use Rattle.sk_lines.specs.Cutter.{HasNoLf};
ghost use Rattle.sk_lines.specs.Runs.{IsRun};
ghost use Rattle.sk_fill.specs.Fills.{GivesAway, HasPage};
ghost use Rattle.sk_fill.specs.Windows.{most_lines, full_bytes, is_full, item_in};
ghost use Rattle.sk_model.specs.Lines.{lines_of};
ghost use Rattle.sk_model.specs.Width.{IsItem};

use crate::page::Page;
use crate::window_lines::WindowLines;
use sk_lines::Span;
use sk_model::OutOfMemory;
use sk_read::{Kind, LINE_LIMIT, LineReader};
use std::alloc::Global;
use std::marker::Model;

// As many bytes of lines as this make a window full.
const FULL_BYTES: usize = 67_108_864;

/// The lines of a source, or the fields of a column, that are fed together.
#[derive(Drop)]
pub struct Window {
    // its first lines, in the bytes that they came in
    page: Page,
    // how many bytes these have without what ended them, if others come after them
    page_bytes: usize,
    // the others, one after the other, and where each lies
    text: Vec<u8>,
    spans: Vec<Span>,
    // how many lines there may be
    most: u32,
}

impl Model for Window {
    ghost use Rattle.std.specs.Prelude.{◌≤◌, ◌++◌, length, vec_capacity};
    ghost use Rattle.sk_lines.specs.Spans.{lines_at};
    ghost use Rattle.sk_fill.specs.Windows.{WindowState, IsWindow};

    ghost Value = { WindowState };

    ghost view = { λ w. record { lines = w.page.lines ++ lines_at w.spans.items w.text.items; most = w.most; apart = length w.spans.items; bytes = w.page.size } };

    ghost invariant = { λ w. IsWindow w.page w.page_bytes w.spans.items w.most w.text.items × (w.most ≤ vec_capacity w.spans) };
}

impl Window {
    /// A window of at most `most` lines, from 1 to 1,000,000. Memory for their bytes is taken as they come.
    pub fn new(alloc: Global, lines: u32) -> Result<Window, OutOfMemory>
        requires least { 1 ≤ lines }
        requires most { lines ≤ most_lines }
        ensures lines { IfOk result (λ w. w.lines ≡ []) }
        ensures most { IfOk result (λ w. w.most ≡ lines) }
    {
        Ok(Window {
            page: Page::new(alloc)?,
            page_bytes: 0,
            text: Vec::new(alloc),
            spans: Vec::with_capacity(alloc, lines as usize)?,
            most: lines,
        })
    }

    /// Puts a line to the end.
    #[inline(always)]
    pub fn push(&mut self, line: &[u8]) -> Result<(), OutOfMemory>
        requires room { is_full self.old ≡ false }
        requires short { length line.now ≤ LINE_LIMIT }
        ensures lines { OnOk result (self.new.lines ≡ self.old.lines ++ line.now ∷ []) }
        ensures refused { OnErr result (self.new.lines ≡ self.old.lines) }
        ensures most { self.new.most ≡ self.old.most }
    {
        if self.spans.is_empty() {
            self.page_bytes = bytes_of(&self.page);
        }
        let from = self.text.len();
        self.text.extend_from_slice(line)?;
        self.spans.push_reserved(Span {
            from,
            to: self.text.len(),
        });
        Ok(())
    }

    /// Puts a line to the end that was read, with the others if it can lie there.
    pub fn push_line(&mut self, line: &[u8]) -> Result<(), OutOfMemory>
        requires room { is_full self.old ≡ false }
        requires short { length line.now ≤ LINE_LIMIT }
        requires plain { HasNoLf line.now }
        ensures lines { OnOk result (self.new.lines ≡ self.old.lines ++ line.now ∷ []) }
        ensures refused { OnErr result (self.new.lines ≡ self.old.lines) }
        ensures most { self.new.most ≡ self.old.most }
    {
        if self.has_room_for(line.len() + 2) {
            return self.page.push(line, self.most);
        }
        self.push(line)
    }

    /// Whether lines of `bytes` bytes in all, with what ended them, can come after the others, and do not fill it by
    /// their bytes.
    #[inline(always)]
    pub fn has_room_for(&self, bytes: usize) -> bool
        ensures apart { result ≡ true → self.now.apart ≡ 0 }
        ensures small { result ≡ true → self.now.bytes + bytes < full_bytes }
        ensures bytes { result ≡ true → length (concat self.now.lines) ≤ self.now.bytes }
        ensures none { result ≡ false → self.now.apart ≡ 0 → full_bytes ≤ self.now.bytes + bytes }
    {
        self.spans.is_empty() && self.page.size().saturating_add(bytes) < FULL_BYTES
    }

    /// Appends the `count` lines of a run, each with what ended it.
    pub fn push_run(&mut self, run: &[u8], count: usize) -> Result<(), OutOfMemory>
        requires run { IsRun count run.now }
        requires apart { self.old.apart ≡ 0 }
        requires room { length self.old.lines + count ≤ self.old.most }
        requires small { self.old.bytes + length run.now < full_bytes }
        ensures lines { OnOk result (self.new.lines ≡ self.old.lines ++ lines_of run.now) }
        ensures refused { OnErr result (self.new.lines ≡ self.old.lines) }
        ensures most { self.new.most ≡ self.old.most }
        ensures apart { self.new.apart ≡ 0 }
    {
        self.page.push_run(run, count, self.most)
    }

    /// Has the `count` lines that a reader gave since the last read, in the bytes that they came in, `each` a line with what
    /// ended it: it changes memory with the reader, and only the bytes that no line given has are copied.
    pub fn take_front(
        &mut self,
        reader: &mut LineReader,
        count: usize,
        each: usize,
    ) -> Result<(), OutOfMemory>
        requires empty { self.old.lines ≡ [] }
        requires page { HasPage self.old.most count each reader.old }
        ensures lines { OnOk result (self.new.lines ≡ lines_of reader.old.cutter.front) }
        ensures gives { OnOk result (GivesAway reader.old reader.new) }
        ensures none { OnErr result (self.new.lines ≡ []) }
        ensures kept { OnErr result (reader.new ≡ reader.old) }
        ensures most { self.new.most ≡ self.old.most }
    {
        self.page.take_front(reader, count, each)
    }

    // Keeps the first `count` lines.
    pub(crate) fn keep(&mut self, count: usize)
        requires apart { self.old.apart ≡ 0 }
        requires within { count ≤ length self.old.lines }
        ensures lines { self.new.lines ≡ take count self.old.lines }
        ensures most { self.new.most ≡ self.old.most }
    {
        self.page.keep(count);
    }

    /// How many lines it has.
    #[inline(always)]
    pub fn len(&self) -> u32
        ensures value { result ≡ length self.now.lines }
        ensures within { result ≤ self.now.most }
        ensures most { self.now.most ≤ most_lines }
    {
        (self.page.len() + self.spans.len()) as u32
    }

    /// How many lines more it takes.
    pub fn room(&self) -> u32
        ensures { length self.now.lines + result ≡ self.now.most }
    {
        self.most - self.len()
    }

    /// About how many bytes its lines have, and no fewer.
    pub fn size(&self) -> usize
        ensures page { self.now.apart ≡ 0 → result ≡ self.now.bytes }
        ensures least { length (concat self.now.lines) ≤ result }
    {
        self.page.size().saturating_add(self.text.len())
    }

    pub fn is_empty(&self) -> bool
        ensures { result ≡ (length self.now.lines == 0) }
    {
        self.len() == 0
    }

    /// Whether it takes no further line.
    #[inline(always)]
    pub fn is_full(&self) -> bool
        ensures { result ≡ is_full self.now }
    {
        self.len() == self.most || self.has_full_bytes()
    }

    // Whether its lines have as many bytes as make it full: a page alone never has.
    #[inline(always)]
    fn has_full_bytes(&self) -> bool
        ensures yes { result ≡ true → full_bytes ≤ length (concat self.now.lines) }
        ensures no { result ≡ false → length (concat self.now.lines) < full_bytes }
    {
        let size = self.page.size();
        let page_bytes = if self.spans.is_empty() {
            size
        } else {
            self.page_bytes
        };
        page_bytes.saturating_add(self.text.len()) >= FULL_BYTES
    }

    /// Its lines from a place on, counted from 0.
    pub fn lines_from(&self, place: u32) -> WindowLines<'_>
        requires { place ≤ length self.now.lines }
        ensures { result.rest ≡ drop place self.now.lines }
    {
        let place = place as usize;
        let lines = self.page.len();
        if place < lines {
            return WindowLines::of(
                self.page.lines_from(place),
                lines - place,
                &self.text,
                &self.spans,
            );
        }
        WindowLines::of(
            self.page.lines_from(lines),
            0,
            &self.text,
            &self.spans[place - lines..],
        )
    }

    /// The bytes of its lines from one place up to another, each with what ended it, if they lie together.
    pub fn run(&self, from: u32, to: u32) -> Option<&[u8]>
        requires order { from ≤ to }
        requires within { to ≤ length self.now.lines }
        ensures run { IfSome result (λ run. IsRun (to - from) run.now) }
        ensures lines { IfSome result (λ run. lines_of run.now ≡ slice_range self.now.lines from to) }
        ensures none { IfNone result (0 < self.now.apart) }
    {
        let (from, to) = (from as usize, to as usize);
        if to > self.page.len() {
            return None;
        }
        Some(self.page.run(from, to))
    }

    /// The line at a place, counted from 0.
    pub fn line(&self, i: u32) -> &[u8]
        requires { i < length self.now.lines }
        ensures { result.now ≡ slice_index_or self.now.lines i [] }
    {
        self.lines_from(i).next_line()
    }

    /// The item of the line at a place: none if it is empty, or has to spell a number and does not.
    pub fn item(&self, i: u32, kind: Kind) -> Option<u64>
        requires { i < length self.now.lines }
        ensures value { result ≡ item_in kind (slice_index_or self.now.lines i []) }
        ensures below { IfSome result IsItem }
    {
        self.lines_from(i).next_item(kind)
    }

    /// Takes all lines out. The memory stays.
    pub fn clear(&mut self)
        ensures lines { self.new.lines ≡ [] }
        ensures most { self.new.most ≡ self.old.most }
    {
        self.page.clear();
        self.text.clear();
        self.spans.clear();
    }
}

// How many bytes the lines of a page have without what ended them.
#[inline(never)]
fn bytes_of(page: &Page) -> usize
    ensures { result ≡ length (concat page.now.lines) }
{
    // By it the proof knows that they are few enough to be counted.
    let _size = page.size();
    let mut lines = page.lines_from(0);
    let mut bytes = 0;
    'line: for _ in 0..page.len() {
        let span = lines.next_line();
        bytes += span.to - span.from;
    }
    bytes
}

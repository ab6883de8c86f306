// Lines that are kept in the bytes that they came in.
ghost use Rattle.std.specs.Prelude.{◌≡◌, ◌+◌, ◌-◌, ◌^◌, ◌<◌, ◌≤◌, ◌++◌, ◌∷◌, [], List, ℕ, All, length, take, drop, replicate, slice_range, vec_len, vec_capacity, IfOk, OnOk, OnErr};
ghost use Rattle.std.specs.List.{concat};
ghost use Rattle.sk_model.specs.Lines.{lines_of};
ghost use Rattle.sk_lines.specs.Cutter.{HasNoLf, IsOfWholeLines};
ghost use Rattle.sk_read.specs.Reading.{HasRead};
ghost use Rattle.sk_fill.specs.Pages.{IsPadded, Begins, IsEven, text_in};
ghost use Rattle.sk_fill.specs.Fills.{GivesAway};
ghost use Rattle.sk_lines.specs.Padded.{with_more};
ghost use Rattle.sk_lines.specs.Runs.{IsRun};
ghost use Rattle.sk_lines.specs.Spans.{AreBehind, lines_at};

use sk_lines::{BLOCK, GROUP, Padded, Span, cut_group, line_len, seek, skip_lfs, take_lf};
use sk_model::OutOfMemory;
use sk_read::{LINE_LIMIT, LineReader, TEXT_ROOM};
use std::alloc::Global;
use std::marker::Model;

// A place is noted after this number of lines.
const STRIDE: usize = 512;

const LINE_END: &[u8] = b"\r\n";

// Once its lines have this many bytes, memory is taken for all lines that may come: a buffer that only doubles is
// copied each time, and touches twice the memory.
const LEAST_KNOWN: usize = 65_536;

// A text has fewer bytes.
const MOST_BYTES: usize = 67_108_864;

// Where a line begins, which is counted from 0.
#[derive(Clone, Copy)]
struct Place {
    line: usize,
    at: usize,
}

impl Place {
    const START: Place = Place { line: 0, at: 0 };
}

// Lines that are kept in the bytes that they came in. Where each begins is found again from places that are
// noted now and then, or by the bytes that each has.
#[derive(Drop)]
pub(crate) struct Page {
    buffer: Padded,
    places: Vec<Place>,
    // How many lines it has.
    count: usize,
    // How many bytes each of them has, with what ended it, or 0 if that is not known to be the same.
    even: usize,
}

impl Model for Page {
    ghost use Rattle.std.specs.Prelude.{length};
    ghost use Rattle.sk_model.specs.Lines.{lines_of};
    ghost use Rattle.sk_fill.specs.Pages.{PageState, IsPage, IsEven, text_in};

    ghost Value = { PageState };

    ghost view = { λ page. record { lines = lines_of (text_in page.buffer.items); size = length (text_in page.buffer.items) } };

    ghost invariant = { λ page. IsPage page.buffer.items page.places.items page.count × IsEven page.even page.count (text_in page.buffer.items) };
}

impl Page {
    // A page without lines.
    pub(crate) fn new(alloc: Global) -> Result<Page, OutOfMemory>
        ensures lines { IfOk result (λ page. page.lines ≡ []) }
        ensures size { IfOk result (λ page. page.size ≡ 0) }
    {
        Ok(Page {
            buffer: Padded::new(alloc, 0)?,
            places: Vec::new(alloc),
            count: 0,
            even: 0,
        })
    }

    // Appends the `count` lines of a run, each with what ended it. There may be `most` lines in all.
    pub(crate) fn push_run(
        &mut self,
        run: &[u8],
        count: usize,
        most: u32,
    ) -> Result<(), OutOfMemory>
        requires run { IsRun count run.now }
        ensures lines { OnOk result (self.new.lines ≡ self.old.lines ++ lines_of run.now) }
        ensures size { OnOk result (self.new.size ≡ self.old.size + length run.now) }
        ensures refused { OnErr result (self.new ≡ self.old) }
    {
        self.note()?;
        append(&mut self.buffer, run, &[], self.count, most)?;
        self.count += count;
        self.even = 0;
        Ok(())
    }

    // Has the `count` lines that a reader gave since the last read, each of `each` bytes with what ended it, in the place of
    // its own: both change memory.
    pub(crate) fn take_front(
        &mut self,
        reader: &mut LineReader,
        count: usize,
        each: usize,
    ) -> Result<(), OutOfMemory>
        requires run { IsRun count reader.old.cutter.front }
        requires even { IsEven each count reader.old.cutter.front }
        requires few { length reader.old.cutter.rest ≤ LINE_LIMIT + 1 }
        ensures lines { OnOk result (self.new.lines ≡ lines_of reader.old.cutter.front) }
        ensures size { OnOk result (self.new.size ≡ length reader.old.cutter.front) }
        ensures gives { OnOk result (GivesAway reader.old reader.new) }
        ensures refused { OnErr result (self.new ≡ self.old) }
        ensures kept { OnErr result (reader.new ≡ reader.old) }
    {
        self.buffer.widen(TEXT_ROOM)?;
        reader.swap(&mut self.buffer);
        self.places.clear();
        self.count = count;
        self.even = each;
        Ok(())
    }

    // Appends a line, with two bytes more that end it. There may be `most` lines in all.
    pub(crate) fn push(&mut self, line: &[u8], most: u32) -> Result<(), OutOfMemory>
        requires { HasNoLf line.now }
        ensures lines { OnOk result (self.new.lines ≡ self.old.lines ++ line.now ∷ []) }
        ensures size { OnOk result (self.new.size ≡ self.old.size + length line.now + 2) }
        ensures refused { OnErr result (self.new ≡ self.old) }
    {
        self.note()?;
        append(&mut self.buffer, line, LINE_END, self.count, most)?;
        self.count += 1;
        self.even = 0;
        Ok(())
    }

    // Notes where the next line will begin, if it is far from the last place that was noted.
    fn note(&mut self) -> Result<(), OutOfMemory>
        ensures { self.new ≡ self.old }
    {
        let last = match self.places.last() {
            Some(place) => place.line,
            None => 0,
        };
        if self.count - last >= STRIDE {
            self.places.push(Place {
                line: self.count,
                at: self.buffer.len() - BLOCK,
            })?;
        }
        Ok(())
    }

    // How many lines it has.
    pub(crate) fn len(&self) -> usize
        ensures { result ≡ length self.now.lines }
    {
        self.count
    }

    // How many bytes its lines have, with what ended them.
    pub(crate) fn size(&self) -> usize
        ensures value { result ≡ self.now.size }
        ensures lines { length (concat self.now.lines) ≤ self.now.size }
    {
        self.buffer.len() - BLOCK
    }

    // Its lines from a place on, counted from 0.
    pub(crate) fn lines_from(&self, place: usize) -> PageLines<'_>
        requires { place ≤ length self.now.lines }
        ensures { result.rest ≡ drop place self.now.lines }
    {
        let text = self.buffer.bytes();
        let at = find_line(text, &self.places, self.even, place);
        PageLines {
            text,
            at,
            scanned: at,
            marks: 0,
        }
    }

    // The bytes of the lines from one place up to another, with what ended them.
    pub(crate) fn run(&self, from: usize, to: usize) -> &[u8]
        requires order { from ≤ to }
        requires within { to ≤ length self.now.lines }
        ensures run { IsRun (to - from) result.now }
        ensures lines { lines_of result.now ≡ slice_range self.now.lines from to }
    {
        let text = self.buffer.bytes();
        let start = find_line(text, &self.places, self.even, from);
        let end = find_line(text, &self.places, self.even, to);
        &text[start..end]
    }

    // Keeps the first `count` lines.
    pub(crate) fn keep(&mut self, count: usize)
        requires { count ≤ length self.old.lines }
        ensures lines { self.new.lines ≡ take count self.old.lines }
        ensures size { self.new.size ≤ self.old.size }
    {
        let at = find_line(self.buffer.bytes(), &self.places, self.even, count);
        self.buffer.cut(at);
        self.places.retain(|place| place.at <= at);
        self.count = count;
        self.even = 0;
    }

    // Takes all lines out. The memory stays.
    pub(crate) fn clear(&mut self)
        ensures lines { self.new.lines ≡ [] }
        ensures size { self.new.size ≡ 0 }
    {
        self.buffer.cut(0);
        self.places.clear();
        self.count = 0;
        self.even = 0;
    }
}

// Where a line begins, counted from 0.
fn find_line(bytes: &[u8], places: &[Place], even: usize, line: usize) -> usize
    requires padded { IsPadded bytes.now }
    requires whole { IsOfWholeLines (text_in bytes.now) }
    requires places { All (λ place. Begins (text_in bytes.now) place.line place.at) places.now }
    requires even { IsEven even (length (lines_of (text_in bytes.now))) (text_in bytes.now) }
    requires within { line ≤ length (lines_of (text_in bytes.now)) }
    ensures { Begins (text_in bytes.now) line result }
{
    if even > 0 {
        return line * even;
    }
    let before = last_place(places, line);
    let (_, at) = skip_lfs(bytes, before.at, line - before.line);
    at
}

// The last place that is noted at or before a line.
fn last_place(places: &[Place], line: usize) -> Place
    ensures before { result.line ≤ line }
    ensures place { (text : List ℕ) → All (λ place. Begins text place.line place.at) places.now → Begins text result.line result.at }
{
    places
        .iter()
        .rev()
        .find(|place| place.line <= line)
        .copied()
        .unwrap_or(Place::START)
}

// Appends bytes and more bytes to the text of `count` lines. If it has no memory for them it finds some for `most` lines.
fn append(
    buffer: &mut Padded,
    bytes: &[u8],
    more: &[u8],
    count: usize,
    most: u32,
) -> Result<(), OutOfMemory>
    requires padded { BLOCK ≤ length buffer.old.items }
    ensures items { OnOk result (buffer.new.items ≡ with_more buffer.old.items (bytes.now ++ more.now)) }
    ensures few { OnOk result (length buffer.new.items < 2 ^ 63) }
    ensures refused { OnErr result (buffer.new.items ≡ buffer.old.items) }
{
    let later = if buffer.has_memory_for(bytes.len() + more.len()) {
        0
    } else {
        bytes_to_come(buffer.len(), count, most as usize)
    };
    buffer.append(bytes, more, later)
}

// How many bytes the lines to come have, about, if `count` of `most` lines have these; 0 if that is not known yet.
fn bytes_to_come(bytes: usize, count: usize, most: usize) -> usize {
    if bytes < LEAST_KNOWN || count == 0 {
        return 0;
    }
    let line = bytes / count;
    // They may be longer by an eighth.
    let each = line.saturating_add(line / 8 + 1);
    let all = each.saturating_mul(most.saturating_sub(count));
    all.min(MOST_BYTES.saturating_sub(bytes))
}

// Lines of a page, one after another.
#[derive(Drop)]
pub(crate) struct PageLines<'a> {
    // The text, and a block of zeros after it.
    text: &'a [u8],
    // Where the next line begins.
    at: usize,
    // How far LFs were sought, and those of the block before that place which come after `at`.
    scanned: usize,
    marks: u64,
}

impl<'a> Model for PageLines<'a> {
    ghost use Rattle.sk_model.specs.Lines.{lines_of};
    ghost use Rattle.sk_fill.specs.Pages.{PageLinesState, AreOnTheWay, text_from};

    ghost Value = { PageLinesState };

    ghost view = { λ lines. record { text = lines.text.now; rest = lines_of (text_from lines.at lines.text.now) } };

    ghost invariant = { λ lines. AreOnTheWay lines.text.now lines.at lines.scanned lines.marks };
}

impl<'a> PageLines<'a> {
    // The text in which the lines lie.
    #[inline(always)]
    pub(crate) fn text(&self) -> &'a [u8]
        ensures { result.now ≡ self.now.text }
    {
        self.text
    }

    // Moves on, and returns where the next line lies.
    #[inline(always)]
    pub(crate) fn next_line(&mut self) -> Span
        requires { 0 < length self.old.rest }
        ensures order { result.from ≤ result.to }
        ensures within { result.to ≤ length self.old.text }
        ensures line { self.old.rest ≡ slice_range self.old.text result.from result.to ∷ self.new.rest }
        ensures text { self.new.text ≡ self.old.text }
    {
        let (scanned, marks) = seek(self.text, self.scanned, self.marks);
        let (end, marks) = take_lf(scanned, marks);
        let from = self.at;
        let len = line_len(self.text, from, end);
        self.at = end + 1;
        self.scanned = scanned;
        self.marks = marks;
        Span {
            from,
            to: from + len,
        }
    }

    // Moves on by some of the next lines, at most `most`, writes to the start of `spans` where they lie, and
    // returns how many they are: none only if none is left or wanted.
    pub(crate) fn next_lines(&mut self, spans: &mut [Span; GROUP], most: usize) -> usize
        ensures few { result ≤ GROUP }
        ensures most { result ≤ most }
        ensures within { AreBehind 0 (take result spans.new) self.old.text }
        ensures lines { self.old.rest ≡ lines_at (take result spans.new) self.old.text ++ self.new.rest }
        ensures some { 0 < most → 0 < length self.old.rest → 0 < result }
        ensures text { self.new.text ≡ self.old.text }
    {
        // No line is longer than the text.
        let (count, at) = cut_group(self.text, self.at, self.text.len(), most, spans);
        self.at = at;
        self.scanned = at;
        self.marks = 0;
        count
    }
}

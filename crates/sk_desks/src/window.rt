// A window of lines, each of them empty or of a tenant.
ghost use Rattle.std.specs.Prelude.{◌≡◌, ◌<◌, ◌≤◌, ◌+◌, ◌-◌, ◌++◌, ◌∷◌, ◌^◌, [], All, length, drop, slice_range, true, OnOk, OnErr, IfErr};
ghost use Rattle.std.specs.List.{concat};
ghost use Rattle.sk_model.specs.Limits.{line_limit};
ghost use Rattle.sk_model.specs.Lines.{lines_of};
ghost use Rattle.sk_lines.specs.Cutter.{HasNoLf};
ghost use Rattle.sk_lines.specs.Runs.{IsRun};
ghost use Rattle.sk_lines.specs.Spans.{AreBehind, lines_at};
ghost use Rattle.sk_fill.specs.Windows.{full_bytes};
ghost use Rattle.sk_fill.specs.Fills.{GivesAway, HasPage};
ghost use Rattle.sk_desks.specs.Entries.{HasRoomFor, window_lines};
ghost use Rattle.sk_desks.specs.Gathers.{AreFirst, HaveOneLength, IsOfTenant, RefusesAs, StopsWithin};

use crate::even::{FirstLines, are_even_of_tenants, first_of_tenants};
use crate::examined::{examine, tenant_like};
use sk_fill::{Window, WindowLines};
use sk_label::LabelFault;
use sk_lines::{GROUP, Span, line_len};
use sk_model::OutOfMemory;
use sk_read::LineReader;
use sk_tenant::Names;
use std::alloc::Global;
use std::marker::Model;

// A window has at most this many lines.
pub(crate) const MOST_LINES: u32 = 8_192;

// As many bytes of lines as this make a window full, so that a stretch of long lines stays small.
pub(crate) const FULL_BYTES: usize = 262_144;

const CR_LF: &[u8] = b"\r\n";

/// Lines of a source, each empty or of a tenant, that are fed together.
#[derive(Drop)]
pub(crate) struct LabelledWindow<'n> {
    names: &'n Names,
    window: Window,
    // whether the last run had CR before its last LF
    cr: bool,
    alloc: Global,
}

impl<'n> Model for LabelledWindow<'n> {
    ghost use Rattle.std.specs.Prelude.{◌≡◌, All};
    ghost use Rattle.sk_desks.specs.Entries.{LabelledState, window_lines};
    ghost use Rattle.sk_desks.specs.Gathers.{IsOfTenant};

    ghost Value = { LabelledState };

    ghost view = { λ w. record { names = w.names.now; lines = w.window.lines; apart = w.window.apart; bytes = w.window.bytes } };

    ghost invariant = { λ w. All (IsOfTenant w.names.now) w.window.lines × (w.window.most ≡ window_lines) };
}

impl<'n> LabelledWindow<'n> {
    /// An empty window, for lines of the tenants with these names.
    pub(crate) fn of(alloc: Global, names: &'n Names, window: Window) -> LabelledWindow<'n>
        requires empty { window.lines ≡ [] }
        requires most { window.most ≡ window_lines }
        ensures names { result.names ≡ names.now }
        ensures lines { result.lines ≡ [] }
    {
        LabelledWindow {
            names,
            window,
            cr: false,
            alloc,
        }
    }

    /// The window with its lines.
    pub(crate) fn into_window(self) -> Window
        ensures lines { result.lines ≡ self.entry.lines }
        ensures most { result.most ≡ window_lines }
    {
        self.window
    }

    /// Whether it takes this many lines more, at most 8,192, of this many bytes.
    pub(crate) fn has_room_for(&self, lines: usize, bytes: usize) -> bool
        requires few { lines ≤ window_lines }
        ensures room { result ≡ true → HasRoomFor lines bytes self.now }
    {
        self.window.len() as usize + lines <= MOST_LINES as usize
            && self.window.size() < FULL_BYTES
            && self.window.has_room_for(bytes)
    }

    /// The first lines of a text, at most `most`, while they have one length and are of its tenants.
    pub(crate) fn first_of(&self, text: &[u8], most: usize) -> FirstLines
        ensures few { result.count ≤ most }
        ensures first { AreFirst self.now.names text.now result.count result.bytes }
        ensures even { HaveOneLength text.now result }
    {
        first_of_tenants(self.names, text, most)
    }

    /// Puts the lines of a run to the end, which were examined. After an error it is not used again.
    pub(crate) fn put(&mut self, run: &[u8], count: usize) -> Result<(), LabelFault>
        requires room { HasRoomFor count (length run.now) self.old }
        requires run { IsRun count run.now }
        requires fine { All (IsOfTenant self.old.names) (lines_of run.now) }
        ensures lines { OnOk result (self.new.lines ≡ self.old.lines ++ lines_of run.now) }
        ensures stopped { IfErr result (λ why. why ≡ LabelFault.OutOfMemory) }
        ensures names { self.new.names ≡ self.old.names }
    {
        self.window.push_run(run, count)?;
        self.cr = run.ends_with(CR_LF);
        Ok(())
    }

    /// Whether its lines lie together, and their bytes with what ended them are these.
    pub(crate) fn is_text(&self, text: &[u8]) -> bool
        ensures run { result ≡ true → IsRun (length self.now.lines) text.now }
        ensures lines { result ≡ true → lines_of text.now ≡ self.now.lines }
        ensures fine { All (IsOfTenant self.now.names) self.now.lines }
    {
        match self.window.run(0, self.window.len()) {
            Some(run) => run == text,
            None => false,
        }
    }

    /// How many lines it has.
    pub(crate) fn len(&self) -> usize
        ensures { result ≡ length self.now.lines }
    {
        self.window.len() as usize
    }

    /// Has the `count` lines that a reader gave since the last read, which were examined, in the place of its own, with the
    /// memory in which they lie: `each` bytes a line with what ended it. After an error it is not used again.
    pub(crate) fn take_front(
        &mut self,
        reader: &mut LineReader,
        count: usize,
        each: usize,
    ) -> Result<(), LabelFault>
        requires page { HasPage window_lines count each reader.old }
        requires fine { All (IsOfTenant self.old.names) (lines_of reader.old.cutter.front) }
        ensures lines { OnOk result (self.new.lines ≡ lines_of reader.old.cutter.front) }
        ensures gives { OnOk result (GivesAway reader.old reader.new) }
        ensures stopped { IfErr result (λ why. why ≡ LabelFault.OutOfMemory) }
        ensures kept { OnErr result (reader.new ≡ reader.old) }
        ensures names { self.new.names ≡ self.old.names }
    {
        self.window.clear();
        self.window.take_front(reader, count, each)?;
        self.cr = false;
        Ok(())
    }

    /// Puts the lines of a run to the end and examines them. They are numbered from `first` on. After an error it is not
    /// used again.
    pub(crate) fn append(&mut self, run: &[u8], count: usize, first: u64) -> Result<(), LabelFault>
        requires some { 0 < count }
        requires room { HasRoomFor count (length run.now) self.old }
        requires run { IsRun count run.now }
        requires number { first + count < 2 ^ 64 }
        ensures lines { OnOk result (self.new.lines ≡ self.old.lines ++ lines_of run.now) }
        ensures fine { OnOk result (All (IsOfTenant self.old.names) (lines_of run.now)) }
        ensures stopped { IfErr result (StopsWithin self.old.names (lines_of run.now) first) }
        ensures names { self.new.names ≡ self.old.names }
    {
        let place = self.window.len();
        self.window.push_run(run, count)?;
        self.cr = run.ends_with(CR_LF);
        if are_even_of_tenants(self.names, run, count) {
            return Ok(());
        }
        let fine = examine_from(self.names, &self.window, place, first);
        if fine.is_err() {
            self.window.clear();
        }
        fine
    }

    /// The same of one line.
    pub(crate) fn push(&mut self, line: &[u8], number: u64) -> Result<(), LabelFault>
        requires room { length self.old.lines < window_lines }
        requires small { length (concat self.old.lines) < full_bytes }
        requires short { length line.now ≤ line_limit }
        requires plain { HasNoLf line.now }
        ensures lines { OnOk result (self.new.lines ≡ self.old.lines ++ line.now ∷ []) }
        ensures fine { OnOk result (IsOfTenant self.old.names line.now) }
        ensures stopped { IfErr result (StopsWithin self.old.names (line.now ∷ []) number) }
        ensures names { self.new.names ≡ self.old.names }
    {
        let all = Span {
            from: 0,
            to: line.len(),
        };
        examine_line(self.names, line, all, number)?;
        push_ended(self.alloc, &mut self.window, line, self.cr)?;
        Ok(())
    }
}

// Appends a line with LF, or with CR LF if it wants that, or ends with CR itself. The lines around it end so, and many
// have one length then.
fn push_ended(alloc: Global, window: &mut Window, line: &[u8], cr: bool) -> Result<(), OutOfMemory>
    requires room { length window.old.lines < window.old.most }
    requires small { length (concat window.old.lines) < full_bytes }
    requires short { length line.now ≤ line_limit }
    requires plain { HasNoLf line.now }
    ensures lines { OnOk result (window.new.lines ≡ window.old.lines ++ line.now ∷ []) }
    ensures refused { OnErr result (window.new.lines ≡ window.old.lines) }
    ensures most { window.new.most ≡ window.old.most }
{
    if cr || line_len(line, 0, line.len()) < line.len() || !window.has_room_for(line.len() + 1) {
        return window.push_line(line);
    }
    let mut run = Vec::with_capacity(alloc, line.len() + 1)?;
    run.extend_from_slice(line)?;
    run.push(b'\n')?;
    window.push_run(run.as_slice(), 1)
}

// Examines the lines of a window from a place on, which are numbered from `first` on.
fn examine_from(names: &Names, window: &Window, place: u32, first: u64) -> Result<(), LabelFault>
    requires within { place ≤ length window.now.lines }
    requires number { first + (length window.now.lines - place) < 2 ^ 64 }
    ensures fine { OnOk result (All (IsOfTenant names.now) (drop place window.now.lines)) }
    ensures stopped { IfErr result (StopsWithin names.now (drop place window.now.lines) first) }
{
    let mut spans = [Span::EMPTY; GROUP];
    let mut lines = window.lines_from(place);
    let count = (window.len() - place) as usize;
    let mut done = 0;
    'group: while done < count {
        let (text, found) = lines.next_lines(&mut spans, count - done);
        examine_lines(names, text, &spans[..found], first + done as u64)?;
        done += found;
    }
    Ok(())
}

// Examines lines that lie in a text, and are numbered from `first` on.
fn examine_lines(names: &Names, text: &[u8], spans: &[Span], first: u64) -> Result<(), LabelFault>
    requires within { AreBehind 0 spans.now text.now }
    requires number { first + length spans.now < 2 ^ 64 }
    ensures fine { OnOk result (All (IsOfTenant names.now) (lines_at spans.now text.now)) }
    ensures stopped { IfErr result (StopsWithin names.now (lines_at spans.now text.now) first) }
{
    let mut label = 0;
    'line: for i in 0..spans.len() {
        label = examine_like(names, text, spans[i], label, first + i as u64)?;
    }
    Ok(())
}

// Examines the line of this number, which lies in a text, and returns how many bytes its label has: mostly as many as
// that of the line before, which is `label`.
#[inline(always)]
fn examine_like(
    names: &Names,
    text: &[u8],
    span: Span,
    label: usize,
    number: u64,
) -> Result<usize, LabelFault>
    requires order { span.from ≤ span.to }
    requires within { span.to ≤ length text.now }
    ensures fine { OnOk result (IsOfTenant names.now (slice_range text.now span.from span.to)) }
    ensures refused { IfErr result (RefusesAs names.now (slice_range text.now span.from span.to) number) }
{
    if tenant_like(names, text, span.from, span.to, label).is_some() {
        return Ok(label);
    }
    examine_line(names, text, span, number)
}

// Examines the line of this number, which lies in a text, and returns how many bytes its label has.
#[inline(always)]
fn examine_line(names: &Names, text: &[u8], span: Span, number: u64) -> Result<usize, LabelFault>
    requires order { span.from ≤ span.to }
    requires within { span.to ≤ length text.now }
    ensures fine { OnOk result (IsOfTenant names.now (slice_range text.now span.from span.to)) }
    ensures refused { IfErr result (RefusesAs names.now (slice_range text.now span.from span.to) number) }
{
    match examine(names, text, span.from, span.to) {
        Ok(line) => Ok(line.item.saturating_sub(1)),
        Err(why) => Err(why.at(number)),
    }
}

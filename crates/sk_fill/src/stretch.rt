//! Windows of a source's lines that are read before they are fed.
ghost use Rattle.std.specs.Prelude.{◌≡◌, ◌<◌, ◌≤◌, ◌-◌, ◌^◌, ◌++◌, ◌∷◌, ℕ, List, [], length, map, min, take, All, Option, Some, true, false, OnOk, OnErr, IfOk};
ghost use Rattle.std.specs.List.{concat};
ghost use Rattle.sk_model.specs.Causes.{HasCauseIn};
ghost use Rattle.sk_read.specs.Reading.{HasRead};
ghost use Rattle.sk_fill.specs.Windows.{most_lines, all_lines};
ghost use Rattle.sk_fill.specs.Stretches.{ReadsStretch, ReadsWindow, stretch_bytes, HaveFewer, StopsAtEnough};

use crate::filling::fill;
use crate::window::Window;
use sk_io::Source;
use sk_model::OutOfMemory;
use sk_read::{Fault, Kind, LineReader};
use std::alloc::Global;
use std::marker::Model;

// As many bytes of lines as this make a stretch full, so that one of long lines stays in a processor's cache.
const FULL_BYTES: usize = 1_048_576;

/// Windows that are fed together.
#[derive(Drop)]
pub struct Stretch {
    // only the first are in use: the others keep their memory
    windows: Vec<Window>,
    used: usize,
    // how many lines those in use have, and about how many bytes these, or as many as can be counted
    lines: usize,
    size: usize,
    // how many lines each takes at most
    most: u32,
    // how many lines of the source come before them
    first: u64,
    alloc: Global,
}

impl Model for Stretch {
    ghost use Rattle.std.specs.Prelude.{◌≡◌, ◌≤◌, length, take, map, All};
    ghost use Rattle.sk_fill.specs.Windows.{most_lines};
    ghost use Rattle.sk_fill.specs.Stretches.{StretchState, IsCounted};

    ghost Value = { StretchState };

    ghost view = { λ b. record { windows = map (λ w. w.lines) (take b.used b.windows.items); most = b.most; first = b.first } };

    ghost invariant = { λ b. (b.used ≤ length b.windows.items) × (1 ≤ b.most) × (b.most ≤ most_lines) × All (λ w. w.most ≡ b.most) b.windows.items
        × IsCounted b.lines b.size (map (λ w. w.lines) (take b.used b.windows.items)) };
}

impl Stretch {
    /// No windows, with memory for none: it is taken as they come.
    pub fn new(alloc: Global, most: u32) -> Stretch
        requires least { 1 ≤ most }
        requires highest { most ≤ most_lines }
        ensures windows { result.windows ≡ [] }
        ensures most { result.most ≡ most }
    {
        Stretch {
            windows: Vec::new(alloc),
            used: 0,
            lines: 0,
            size: 0,
            most,
            first: 0,
            alloc,
        }
    }

    /// Its windows, in order.
    pub fn windows(&self) -> &[Window]
        ensures { map (λ w. w.lines) result.now ≡ self.now.windows }
    {
        &self.windows[..self.used]
    }

    /// Takes all windows out: `first` lines of the source come before the next ones. The memory stays.
    pub fn clear(&mut self, first: u64)
        ensures windows { self.new.windows ≡ [] }
        ensures most { self.new.most ≡ self.old.most }
        ensures first { self.new.first ≡ first }
    {
        self.first = first;
        self.used = 0;
        self.lines = 0;
        self.size = 0;
    }

    /// How many lines a window takes at most.
    pub fn most(&self) -> u32
        ensures value { result ≡ self.now.most }
        ensures least { 1 ≤ result }
        ensures highest { result ≤ most_lines }
    {
        self.most
    }

    /// How many lines it has, or as many as can be counted.
    pub fn lines(&self) -> usize
        ensures { result ≡ min (length (all_lines self.now.windows)) (2 ^ 64 - 1) }
    {
        self.lines
    }

    /// About how many bytes its lines have, and no fewer, or as many as can be counted.
    pub fn size(&self) -> usize
        ensures { min (length (concat (all_lines self.now.windows))) (2 ^ 64 - 1) ≤ result }
    {
        self.size
    }

    /// An empty window that belongs to none of those that it has: one that it had before, if there is one.
    pub fn spare(&mut self) -> Result<Window, OutOfMemory>
        ensures lines { IfOk result (λ w. w.lines ≡ []) }
        ensures most { IfOk result (λ w. w.most ≡ self.old.most) }
        ensures stays { self.new ≡ self.old }
    {
        if self.used < self.windows.len() {
            if let Some(mut window) = self.windows.pop() {
                window.clear();
                return Ok(window);
            }
        }
        Window::new(self.alloc, self.most)
    }

    /// Appends a window. On an error those that it has are as they were.
    pub fn push(&mut self, window: Window) -> Result<(), OutOfMemory>
        requires most { window.most ≡ self.old.most }
        ensures windows { OnOk result (self.new.windows ≡ self.old.windows ++ window.lines ∷ []) }
        ensures refused { OnErr result (self.new.windows ≡ self.old.windows) }
        ensures most { self.new.most ≡ self.old.most }
        ensures first { self.new.first ≡ self.old.first }
    {
        let lines = self.lines.saturating_add(window.len() as usize);
        let size = self.size.saturating_add(window.size());
        self.windows.insert(self.used, window)?;
        self.lines = lines;
        self.size = size;
        self.used += 1;
        Ok(())
    }

    /// Whether it takes no further window, if `enough` lines are enough, or about 1 MiB of long ones.
    pub fn is_full(&self, enough: usize) -> bool
        ensures few { result ≡ false → HaveFewer enough stretch_bytes self.now.windows }
    {
        self.lines >= enough || self.size >= FULL_BYTES
    }

    // Reads lines into a window more, and returns whether that is full.
    fn read_window<S: Source>(
        &mut self,
        reader: &mut LineReader,
        source: &mut S,
        kind: Kind,
    ) -> Result<bool, Fault>
        requires started { (given : List (List ℕ)) × (taken : List ℕ) × HasRead reader.old (S.left source.old) given taken }
        ensures reads { (lines : List (List ℕ)) × OnOk result (self.new.windows ≡ self.old.windows ++ lines ∷ [])
            × ReadsWindow kind self.old.most lines reader.old reader.new (S.left source.old) (S.left source.new) result }
        ensures most { self.new.most ≡ self.old.most }
        ensures first { self.new.first ≡ self.old.first }
        ensures piece { reader.old.last ≤ S.last source.old → reader.new.last ≤ S.last source.new }
        ensures cause { HasCauseIn Fault.ReadFault (S.faults source.old) (S.faults source.new) result }
        ensures stays { S.stands_on source.new ≡ S.stands_on source.old }
    {
        reserve(self.alloc, &mut self.windows, self.used, self.most)?;
        let window = &mut self.windows[self.used];
        window.clear();
        let full = fill(reader, source, window, kind)?;
        self.lines = self.lines.saturating_add(window.len() as usize);
        self.size = self.size.saturating_add(window.size());
        self.used += 1;
        Ok(full)
    }
}

// Finds memory for a window after those in use.
fn reserve(
    alloc: Global,
    windows: &mut Vec<Window>,
    used: usize,
    most: u32,
) -> Result<(), OutOfMemory>
    requires used { used ≤ length windows.old.items }
    requires least { 1 ≤ most }
    requires highest { most ≤ most_lines }
    requires each { All (λ w. w.most ≡ most) windows.old.items }
    ensures room { OnOk result (used < length windows.new.items) }
    ensures used { used ≤ length windows.new.items }
    ensures same { take used windows.new.items ≡ take used windows.old.items }
    ensures each { All (λ w. w.most ≡ most) windows.new.items }
{
    if used == windows.len() {
        windows.push(Window::new(alloc, most)?)?;
    }
    Ok(())
}

/// Reads windows into a stretch, in the place of those that it has, until it has as many lines as are enough or is full,
/// or returns `false` at the end of the source: then the last of them is not full. It stops where `fill` does.
pub fn fill_stretch<S: Source>(
    reader: &mut LineReader,
    source: &mut S,
    stretch: &mut Stretch,
    kind: Kind,
    enough: usize,
) -> Result<bool, Fault>
    requires started { (given : List (List ℕ)) × (taken : List ℕ) × HasRead reader.old (S.left source.old) given taken }
    ensures reads { ReadsStretch kind stretch.old.most stretch.new.windows reader.old reader.new (S.left source.old) (S.left source.new) result }
    ensures most { stretch.new.most ≡ stretch.old.most }
    ensures first { stretch.new.first ≡ reader.old.cutter.number }
    ensures few { OnOk result (StopsAtEnough enough stretch_bytes stretch.new.windows) }
    ensures piece { reader.old.last ≤ S.last source.old → reader.new.last ≤ S.last source.new }
    ensures cause { HasCauseIn Fault.ReadFault (S.faults source.old) (S.faults source.new) result }
    ensures stays { S.stands_on source.new ≡ S.stands_on source.old }
{
    stretch.clear(reader.number());
    'window: while stretch.read_window(reader, source, kind)? {
        if stretch.is_full(enough) {
            return Ok(true);
        }
    }
    Ok(false)
}

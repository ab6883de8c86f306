//! Lines that a reader holds, taken into a window.
ghost use Rattle.std.specs.Prelude.{◌≡◌, ◌≢◌, ◌<◌, ◌≤◌, ◌+◌, ◌-◌, ◌^◌, ℕ, List, ◌++◌, [], length, take, drop, slice_index_or, All, Option, Ok, Err, OnOk, IfErr, IfSome, IfNone, true, false};
ghost use Rattle.std.specs.List.{concat};
ghost use Rattle.sk_read.specs.Items.{IsGood};
ghost use Rattle.sk_read.specs.Reading.{HasRead, remaining_of};
ghost use Rattle.sk_fill.specs.Windows.{IsBad, full_bytes, FillsNone};
ghost use Rattle.sk_fill.specs.Fills.{TakesHeld, TakesMore, TakesSome, EndsWithLine, RefusesFrom};

use crate::good::is_good;
use crate::window::Window;
use sk_read::{Fault, Kind, LineReader};

// As many lines are taken at once at most.
const RUN: usize = 512;

// Takes the lines that a reader holds into a window until it is full, and returns whether it is.
pub(crate) fn take_held(
    window: &mut Window,
    reader: &mut LineReader,
    kind: Kind,
) -> Result<bool, Fault>
    requires unfilled { FillsNone window.old.most window.old.lines }
    requires good { All (IsGood kind) window.old.lines }
    requires started { (left : Option (List ℕ)) × (given : List (List ℕ)) × (taken : List ℕ) × HasRead reader.old left (given ++ window.old.lines) taken }
    ensures takes { TakesHeld kind window.new.most window.old.lines window.new.lines reader.old reader.new result }
    ensures most { window.new.most ≡ window.old.most }
    ensures cause { result ≢ Err Fault.ReadFault }
    ensures remaining { remaining_of reader.new ≤ remaining_of reader.old }
    ensures bound { reader.new.most ≡ reader.old.most }
    ensures piece { reader.new.last ≡ reader.old.last }
{
    if take_runs(window, reader, kind)? {
        return Ok(true);
    }
    take_lines(window, reader, kind)
}

// Takes many lines at once as long as they can lie with the others, and returns whether the window is full.
fn take_runs(window: &mut Window, reader: &mut LineReader, kind: Kind) -> Result<bool, Fault>
    requires unfilled { FillsNone window.old.most window.old.lines }
    requires good { All (IsGood kind) window.old.lines }
    requires started { (left : Option (List ℕ)) × (given : List (List ℕ)) × (taken : List ℕ) × HasRead reader.old left (given ++ window.old.lines) taken }
    ensures full { result ≡ Ok true → TakesHeld kind window.new.most window.old.lines window.new.lines reader.old reader.new result }
    ensures more { result ≡ Ok false → TakesMore kind window.new.most window.old.lines window.new.lines reader.old reader.new }
    ensures stopped { IfErr result (λ why. TakesHeld kind window.new.most window.old.lines window.new.lines reader.old reader.new (Err why)) }
    ensures cause { result ≢ Err Fault.ReadFault }
    ensures most { window.new.most ≡ window.old.most }
    ensures remaining { remaining_of reader.new ≤ remaining_of reader.old }
    ensures bound { reader.new.most ≡ reader.old.most }
    ensures piece { reader.new.last ≡ reader.old.last }
{
    'run: while window.has_room_for(reader.rest().len()) {
        if !take_run(window, reader, kind)? {
            return Ok(false);
        }
        if window.is_full() {
            return Ok(true);
        }
    }
    Ok(false)
}

// Takes some lines that a reader holds, and returns whether there were any.
fn take_run(window: &mut Window, reader: &mut LineReader, kind: Kind) -> Result<bool, Fault>
    requires unfilled { FillsNone window.old.most window.old.lines }
    requires good { All (IsGood kind) window.old.lines }
    requires started { (left : Option (List ℕ)) × (given : List (List ℕ)) × (taken : List ℕ) × HasRead reader.old left (given ++ window.old.lines) taken }
    requires apart { window.old.apart ≡ 0 }
    requires small { window.old.bytes + length reader.old.cutter.rest < full_bytes }
    requires bytes { length (concat window.old.lines) ≤ window.old.bytes }
    ensures some { result ≡ Ok true → TakesSome kind window.new.most window.old.lines window.new.lines reader.old reader.new }
    ensures none { result ≡ Ok false → TakesMore kind window.new.most window.old.lines window.new.lines reader.old reader.new }
    ensures stopped { IfErr result (λ why. TakesHeld kind window.new.most window.old.lines window.new.lines reader.old reader.new (Err why)) }
    ensures cause { result ≢ Err Fault.ReadFault }
    ensures most { window.new.most ≡ window.old.most }
    ensures remaining { remaining_of reader.new ≤ remaining_of reader.old }
    ensures progress { result ≡ Ok true → remaining_of reader.new < remaining_of reader.old }
    ensures bound { reader.new.most ≡ reader.old.most }
    ensures piece { reader.new.last ≡ reader.old.last }
{
    let before = reader.number();
    let from = reader.front().len();
    let first = window.len();
    let count = reader.next_run(RUN.min(window.room() as usize));
    if count == 0 {
        return Ok(false);
    }
    let run = &reader.front()[from..];
    window.push_run(run, count)?;
    if !kind.are_items(run) {
        keep_good(window, first, kind, before)?;
    }
    Ok(true)
}

// Takes out of a window what comes from a place on after lines that are good. `before` lines came before that place.
fn keep_good(window: &mut Window, first: u32, kind: Kind, before: u64) -> Result<(), Fault>
    requires apart { window.old.apart ≡ 0 }
    requires within { first ≤ length window.old.lines }
    requires number { before + (length window.old.lines - first) < 2 ^ 64 }
    ensures all { OnOk result (window.new.lines ≡ window.old.lines) }
    ensures good { OnOk result (All (IsGood kind) (drop first window.old.lines)) }
    ensures stopped { IfErr result (λ why. RefusesFrom kind before why first window.old.lines window.new.lines) }
    ensures most { window.new.most ≡ window.old.most }
{
    match first_bad(window, first, kind) {
        None => Ok(()),
        Some(place) => {
            window.keep(place as usize);
            Err(Fault::BadItem(before + u64::from(place - first) + 1))
        }
    }
}

// The first place from one on of a line that is neither empty nor an item.
fn first_bad(window: &Window, first: u32, kind: Kind) -> Option<u32>
    requires { first ≤ length window.now.lines }
    ensures none { IfNone result (All (IsGood kind) (drop first window.now.lines)) }
    ensures place { IfSome result (λ place. (first ≤ place) × (place < length window.now.lines)) }
    ensures good { IfSome result (λ place. All (IsGood kind) (drop first (take place window.now.lines))) }
    ensures bad { IfSome result (λ place. IsBad kind (slice_index_or window.now.lines place [])) }
{
    let mut lines = window.lines_from(first);
    'line: for place in first..window.len() {
        if !is_good(kind, lines.next_line()) {
            return Some(place);
        }
    }
    None
}

// Takes lines one after another until the window is full, and returns whether it is.
fn take_lines(window: &mut Window, reader: &mut LineReader, kind: Kind) -> Result<bool, Fault>
    requires unfilled { FillsNone window.old.most window.old.lines }
    requires good { All (IsGood kind) window.old.lines }
    requires started { (left : Option (List ℕ)) × (given : List (List ℕ)) × (taken : List ℕ) × HasRead reader.old left (given ++ window.old.lines) taken }
    ensures takes { TakesHeld kind window.new.most window.old.lines window.new.lines reader.old reader.new result }
    ensures most { window.new.most ≡ window.old.most }
    ensures cause { result ≢ Err Fault.ReadFault }
    ensures remaining { remaining_of reader.new ≤ remaining_of reader.old }
    ensures bound { reader.new.most ≡ reader.old.most }
    ensures piece { reader.new.last ≡ reader.old.last }
{
    'line: while reader.next_held()? {
        let line = reader.line();
        if !is_good(kind, line) {
            return Err(Fault::BadItem(reader.number()));
        }
        window.push_line(line)?;
        if window.is_full() {
            return Ok(true);
        }
    }
    Ok(false)
}

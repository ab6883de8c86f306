// Lines of a source that are examined as they come, and gathered in a window.
ghost use Rattle.std.specs.Prelude.{◌≡◌, ◌+◌, ◌<◌, ◌≤◌, ◌++◌, ℕ, List, Option, [], length, true, false, Ok, IfSome};
ghost use Rattle.std.specs.List.{concat};
ghost use Rattle.sk_model.specs.Causes.{HasCauseIn};
ghost use Rattle.sk_fill.specs.Windows.{full_bytes};
ghost use Rattle.sk_read.specs.Reading.{HasRead, remaining_of};
ghost use Rattle.sk_desks.specs.Entries.{HasRoomFor, window_lines};
ghost use Rattle.sk_desks.specs.Gathers.{AreFirst, Gathers, HasPiece, TakesHeld};

use crate::even::FirstLines;
use crate::window::{FULL_BYTES, LabelledWindow, MOST_LINES};
use sk_io::Source;
use sk_label::LabelFault;
use sk_read::LineReader;

// As many lines are taken at once at most.
const RUN: usize = 256;

// If fewer are known to be of tenants by the shape of the first, the ends of all are sought.
const FEWEST: usize = 16;

// If fewer are held, or more bytes after them, they are copied.
const FEWEST_WHOLE: usize = 256;

const MOST_REST: usize = 4_096;

// Reads lines into an empty window, until it is full, or returns `false` at the end of the source.
pub(crate) fn gather_window<S: Source>(
    reader: &mut LineReader,
    window: &mut LabelledWindow<'_>,
    source: &mut S,
) -> Result<bool, LabelFault>
    requires empty { window.old.lines ≡ [] }
    requires started { (given : List (List ℕ)) × (taken : List ℕ) × HasRead reader.old (S.left source.old) given taken }
    ensures gathers { Gathers window.old.names reader.old reader.new (S.left source.old) (S.left source.new) window.new.lines result }
    ensures names { window.new.names ≡ window.old.names }
    ensures piece { reader.old.last ≤ S.last source.old → reader.new.last ≤ S.last source.new }
    ensures cause { HasCauseIn LabelFault.ReadFault (S.faults source.old) (S.faults source.new) result }
    ensures stays { S.stands_on source.new ≡ S.stands_on source.old }
{
    'piece: while reader.next(source)? {
        window.push(reader.line(), reader.number())?;
        if take_held(window, reader)? {
            return Ok(true);
        }
    }
    Ok(false)
}

// Takes the lines that a reader holds into a window, many at once, until it is full, and returns whether it is.
fn take_held(window: &mut LabelledWindow<'_>, reader: &mut LineReader) -> Result<bool, LabelFault>
    requires started { (left : Option (List ℕ)) × (given : List (List ℕ)) × (taken : List ℕ) × HasRead reader.old left (given ++ window.old.lines) taken }
    ensures takes { TakesHeld window.old.names window.old.lines window.new.lines reader.old reader.new result }
    ensures room { result ≡ Ok false → length window.new.lines + RUN ≤ window_lines }
    ensures few { result ≡ Ok false → length (concat window.new.lines) < full_bytes }
    ensures names { window.new.names ≡ window.old.names }
{
    if take_piece(window, reader)? {
        return Ok(true);
    }
    take_runs(window, reader)
}

// The same, many at once.
fn take_runs(window: &mut LabelledWindow<'_>, reader: &mut LineReader) -> Result<bool, LabelFault>
    requires started { (left : Option (List ℕ)) × (given : List (List ℕ)) × (taken : List ℕ) × HasRead reader.old left (given ++ window.old.lines) taken }
    ensures takes { TakesHeld window.old.names window.old.lines window.new.lines reader.old reader.new result }
    ensures room { result ≡ Ok false → length window.new.lines + RUN ≤ window_lines }
    ensures few { result ≡ Ok false → length (concat window.new.lines) < full_bytes }
    ensures names { window.new.names ≡ window.old.names }
{
    'run: while window.has_room_for(RUN, reader.rest().len()) {
        if !take_run(window, reader)? {
            return Ok(false);
        }
    }
    Ok(true)
}

// Gives a window all lines that a reader has, with the memory in which they lie, if they are many and all that it has, and
// returns whether it did.
fn take_piece(window: &mut LabelledWindow<'_>, reader: &mut LineReader) -> Result<bool, LabelFault>
    requires started { (left : Option (List ℕ)) × (given : List (List ℕ)) × (taken : List ℕ) × HasRead reader.old left (given ++ window.old.lines) taken }
    ensures takes { TakesHeld window.old.names window.old.lines window.new.lines reader.old reader.new result }
    ensures none { result ≡ Ok false → window.new ≡ window.old }
    ensures names { window.new.names ≡ window.old.names }
{
    match whole_piece(window, reader) {
        Some(first) => take_whole(window, reader, first),
        None => Ok(false),
    }
}

// The lines that a reader holds after that of a window, if they are many and as long, and the window's is all that it gave.
fn whole_piece(window: &LabelledWindow<'_>, reader: &LineReader) -> Option<FirstLines>
    ensures { IfSome result (HasPiece window.now reader.now) }
{
    if window.len() != 1 || !window.is_text(reader.front()) {
        return None;
    }
    let rest = reader.rest();
    let first = window.first_of(rest, MOST_LINES as usize - 1);
    let front = reader.front().len();
    let even = first.len < front && front - first.len == 1;
    let fits = front + first.bytes < FULL_BYTES;
    if first.count < FEWEST_WHOLE || rest.len() - first.bytes > MOST_REST || !even || !fits {
        return None;
    }
    Some(first)
}

// The same of the lines that were found.
fn take_whole(
    window: &mut LabelledWindow<'_>,
    reader: &mut LineReader,
    first: FirstLines,
) -> Result<bool, LabelFault>
    requires started { (left : Option (List ℕ)) × (given : List (List ℕ)) × (taken : List ℕ) × HasRead reader.old left (given ++ window.old.lines) taken }
    requires piece { HasPiece window.old reader.old first }
    ensures takes { TakesHeld window.old.names window.old.lines window.new.lines reader.old reader.new result }
    ensures none { result ≡ Ok false → window.new ≡ window.old }
    ensures names { window.new.names ≡ window.old.names }
{
    let count = reader.pass_run(first.bytes, first.count);
    if count == 0 {
        return Ok(false);
    }
    window.take_front(reader, 1 + count, first.len + 1)?;
    Ok(true)
}

// Takes some lines that a reader holds into a window, and returns whether there were any.
fn take_run(window: &mut LabelledWindow<'_>, reader: &mut LineReader) -> Result<bool, LabelFault>
    requires started { (left : Option (List ℕ)) × (given : List (List ℕ)) × (taken : List ℕ) × HasRead reader.old left (given ++ window.old.lines) taken }
    requires room { HasRoomFor RUN (length reader.old.cutter.rest) window.old }
    ensures takes { TakesHeld window.old.names window.old.lines window.new.lines reader.old reader.new result }
    ensures progress { result ≡ Ok true → remaining_of reader.new < remaining_of reader.old }
    ensures none { result ≡ Ok false → window.new ≡ window.old }
    ensures names { window.new.names ≡ window.old.names }
{
    let first = window.first_of(reader.rest(), RUN);
    if first.count < FEWEST {
        return take_sought(window, reader);
    }
    take_first(window, reader, first)
}

// The same of the first of them, which are of tenants.
fn take_first(
    window: &mut LabelledWindow<'_>,
    reader: &mut LineReader,
    first: FirstLines,
) -> Result<bool, LabelFault>
    requires started { (left : Option (List ℕ)) × (given : List (List ℕ)) × (taken : List ℕ) × HasRead reader.old left (given ++ window.old.lines) taken }
    requires room { HasRoomFor RUN (length reader.old.cutter.rest) window.old }
    requires few { first.count ≤ RUN }
    requires first { AreFirst window.old.names reader.old.cutter.rest first.count first.bytes }
    ensures takes { TakesHeld window.old.names window.old.lines window.new.lines reader.old reader.new result }
    ensures progress { result ≡ Ok true → remaining_of reader.new < remaining_of reader.old }
    ensures none { result ≡ Ok false → window.new ≡ window.old }
    ensures names { window.new.names ≡ window.old.names }
{
    let from = reader.front().len();
    let count = reader.pass_run(first.bytes, first.count);
    if count == 0 {
        return Ok(false);
    }
    window.put(&reader.front()[from..], count)?;
    Ok(true)
}

// The same of those whose ends are sought.
fn take_sought(window: &mut LabelledWindow<'_>, reader: &mut LineReader) -> Result<bool, LabelFault>
    requires started { (left : Option (List ℕ)) × (given : List (List ℕ)) × (taken : List ℕ) × HasRead reader.old left (given ++ window.old.lines) taken }
    requires room { HasRoomFor RUN (length reader.old.cutter.rest) window.old }
    ensures takes { TakesHeld window.old.names window.old.lines window.new.lines reader.old reader.new result }
    ensures progress { result ≡ Ok true → remaining_of reader.new < remaining_of reader.old }
    ensures none { result ≡ Ok false → window.new ≡ window.old }
    ensures names { window.new.names ≡ window.old.names }
{
    let first = reader.number() + 1;
    let from = reader.front().len();
    let count = reader.next_run(RUN);
    if count == 0 {
        return Ok(false);
    }
    window.append(&reader.front()[from..], count, first)?;
    Ok(true)
}

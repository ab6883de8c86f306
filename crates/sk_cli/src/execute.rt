// What is asked, over the standard input or over files.
ghost use Rattle.std.specs.Prelude.{◌≡◌, ◌≢◌, ◌≤◌, IfErr, true, false};
ghost use Rattle.std.specs.Option.{option_copied};
ghost use Rattle.sk_model.specs.Limits.{source_limit};
ghost use Rattle.sk_cli.specs.Beside.{IsFullBoard, beside_of, left_of};
ghost use Rattle.sk_cli.specs.Command.{asked_of, behaviour_of, armed_at_start, frame_of, IsWithin, IsInOrder, OfText};
ghost use Rattle.sk_cli.specs.Outside.{Net, streams_of, outside_of, outside_with};
ghost use Rattle.sk_cli.specs.Run.{ExecutesSo, Performs, exit_of};
ghost use Rattle.sk_cli.specs.Touches.{handed, TouchesOnly};

use crate::command::{Command, Request};
use crate::commands::about::{HELP, VERSION};
use crate::commands::count::count;
use crate::commands::hash::hash;
use crate::commands::image::image;
use crate::commands::join::join;
use crate::commands::make::make;
use crate::commands::quantile::quantile;
use crate::commands::replay::replay;
use crate::commands::serve::serve;
use crate::commands::tally::tally;
use crate::commands::tenants::tenants;
use crate::commands::window::window;
use crate::fault::Fault;
use crate::remains::Remains;
use crate::watchers::clear;
use crate::write::write_text;
use sk_io::{Door, OpenFile, Shelf, Sink, Source};
use sk_report::arm;
use sk_watch::Seen;
use std::alloc::Global;
use std::sync::Wait;
use std::thread::Threads;

// Does what a command asks, over the standard input or the file of this name, of fewer than `most`
// bytes.
fn perform_text<'r, R: Threads + Wait + Sync, S: Source, O: Sink, F: Shelf, B: Seen>(
    rt: &'r R,
    alloc: Global,
    command: &Command<'_>,
    file: Option<&str>,
    most: u64,
    input: &mut S,
    out: &mut O,
    shelf: &mut F,
    board: &mut B,
    remains: &mut Remains<&'r R>,
) -> Result<(), Fault>
    requires within { IsWithin command.now }
    requires bound { most ≤ source_limit }
    requires board { IsFullBoard (B.places board.old) }
    ensures done { (net : Net) → let outside = outside_with S.Source O.Sink F.Shelf B.Seen in
        Performs (OfText (record { command = command.now; file = option_copied file.entry })) most
        (outside input.old out.old shelf.old board.old (left_of remains.old) net)
        (outside input.new out.new shelf.new board.new (left_of remains.new) net) result }
    ensures touches { TouchesOnly (frame_of (OfText (record { command = command.now; file = option_copied file.entry }))) (exit_of result)
        (handed input.old out.old shelf.old (tt {0}) board.old) (handed input.new out.new shelf.new (tt {0}) board.new) }
{
    match file {
        None => execute(rt, alloc, command, most, input, out, board, remains),
        Some(name) => match OpenFile::open(shelf, name) {
            Ok(mut file) => execute(rt, alloc, command, most, &mut file, out, board, remains),
            Err(_refused) => {
                set_alarms(command, board);
                Err(Fault::OpenFault)
            }
        },
    }
}

/// Does what is asked: a command over the standard input or a file, of fewer than `most` bytes, a join of two
/// files, of as few each, or a server over links, of as few each.
pub fn perform<'r, R: Threads + Wait + Sync, S: Source, O: Sink, F: Shelf, D: Door, B: Seen>(
    rt: &'r R,
    alloc: Global,
    request: &Request<'_>,
    most: u64,
    input: &mut S,
    out: &mut O,
    shelf: &mut F,
    door: &mut D,
    board: &mut B,
    remains: &mut Remains<&'r R>,
) -> Result<(), Fault>
where
    D::Link: Send,
    requires order { IsInOrder (asked_of request.now) }
    requires bound { most ≤ source_limit }
    requires board { IsFullBoard (B.places board.old) }
    ensures done { let outside = outside_of S.Source O.Sink F.Shelf D.Door B.Seen in
        Performs (asked_of request.now) most
        (outside input.old out.old shelf.old door.old board.old (left_of remains.old))
        (outside input.new out.new shelf.new door.new board.new (left_of remains.new)) result }
    ensures touches { TouchesOnly (frame_of (asked_of request.now)) (exit_of result)
        (handed input.old out.old shelf.old door.old board.old) (handed input.new out.new shelf.new door.new board.new) }
{
    match request {
        Request::OverText(over) => perform_text(
            rt,
            alloc,
            &over.command,
            over.file,
            most,
            input,
            out,
            shelf,
            board,
            remains,
        ),
        Request::Join(plan) => {
            clear(board);
            join(alloc, plan, most, out, shelf)
        }
        Request::Serve(plan) => serve(rt, alloc, plan, most, out, door, board, remains),
    }
}

// Arms the first places for the alarms of a command, and lets all other watchers go.
fn set_alarms<B: Seen>(command: &Command<'_>, board: &mut B)
    requires within { IsWithin command.now }
    requires board { IsFullBoard (B.places board.old) }
    ensures { B.places board.new ≡ armed_at_start command.now (B.places board.old) }
{
    match command {
        Command::Count(plan) => arm(board, plan.k, plan.alarms.as_slice()),
        _ => clear(board),
    }
}

/// Does what a command asks, over a source of fewer than `most` bytes.
pub fn execute<'r, R: Threads + Wait + Sync, S: Source, O: Sink, B: Seen>(
    rt: &'r R,
    alloc: Global,
    command: &Command<'_>,
    most: u64,
    source: &mut S,
    out: &mut O,
    board: &mut B,
    remains: &mut Remains<&'r R>,
) -> Result<(), Fault>
    requires within { IsWithin command.now }
    requires bound { most ≤ source_limit }
    requires board { IsFullBoard (B.places board.old) }
    ensures done { let old = streams_of S.Source O.Sink source.old out.old in
        let new = streams_of S.Source O.Sink source.new out.new in
        ExecutesSo (behaviour_of command.now) most (beside_of (B.places board.old) remains.old) (beside_of (B.places board.new) remains.new) old new result }

    // Only what it reads is touched, and the output only if there is something to write.
    ensures idle { (behaviour_of command.now).reads ≡ false → source.new ≡ source.old }
    ensures last { (behaviour_of command.now).writes_last ≡ true → IfErr result (λ fault. fault ≢ Fault.WriteFault → out.new ≡ out.old) }
    ensures stays { S.stands_on source.new ≡ S.stands_on source.old }
{
    match command {
        Command::Count(plan) => count(rt, alloc, plan, most, source, out, board, remains),
        Command::Hash(plan) => {
            clear(board);
            hash(alloc, plan, most, source, out)
        }
        Command::Image(plan) => {
            clear(board);
            image(alloc, plan, most, source, out)
        }
        Command::Make(plan) => make(rt, alloc, plan, out, board, remains),
        Command::Quantile(plan) => {
            clear(board);
            quantile(rt, alloc, plan, most, source, out, remains)
        }
        Command::Replay => {
            clear(board);
            replay(alloc, most, source, out)
        }
        Command::Tally(plan) => {
            clear(board);
            tally(rt, alloc, plan, most, source, out)
        }
        Command::Tenants(plan) => {
            clear(board);
            tenants(rt, alloc, plan, most, source, out)
        }
        Command::Window(plan) => {
            clear(board);
            window(rt, alloc, plan, most, source, out)
        }
        Command::Help => {
            clear(board);
            write_text(out, HELP.as_bytes())
        }
        Command::Version => {
            clear(board);
            write_text(out, VERSION.as_bytes())
        }
    }
}

// One run over streams in memory, and the boards that it is handed.
ghost use Rattle.std.specs.Prelude.{IfOk};
ghost use Rattle.sk_cli.specs.Beside.{IsFullBoard};

use sk_cli::{BOARD_PLACES, Remains, board_of, run};
use sk_io::{Door, MemDoor, MemSink, MemSource, Shelf};
use sk_watch::{Alarm, Board, Seen, Watcher};
use std::alloc::Global;
use std::process::Abort;
use std::sync::Wait;
use std::test::Fail;
use std::thread::Threads;

// A call that is never made.
const NEVER: u32 = 1_000_000;

/// How the streams of a run are: in what pieces they move bytes, which of their calls fails, and
/// how many bytes go into the output and into standard error.
#[derive(Clone, Copy)]
pub struct Streams {
    pub piece: u32,
    pub read: u32,
    pub taken: u32,
    pub write: u32,
    pub room: u32,
    pub err: u32,
    pub open: u32,
    pub file: u32,
}

/// Streams that never fail.
pub const FINE: Streams = Streams {
    piece: 1,
    read: NEVER,
    taken: 7,
    write: NEVER,
    room: 10_000,
    err: 1_000,
    open: NEVER,
    file: NEVER,
};

/// What a run ended with, and what it wrote.
#[derive(Drop)]
pub struct Ran {
    pub status: u8,
    pub out: MemSink,
    pub err: MemSink,
}

/// The words of a line; `''` stands for an empty one, and `_` for a blank.
pub fn words_of(alloc: Global, line: &str) -> Result<Vec<String>, Fail> {
    let mut words = Vec::new(alloc);
    'word: for word in line.split_whitespace() {
        let word = if word == "''" { "" } else { word };
        words.push(word.replace(alloc, '_', " ")?)?;
    }
    Ok(words)
}

/// An alarm at each place.
pub fn alarms(alloc: Global) -> Result<Board, Fail>
    ensures { IfOk result (λ board. IsFullBoard (⟦<Board as Seen>⟧.places board)) }
{
    let mut boxes: Vec<Option<Box<dyn Watcher>>> = Vec::new(alloc);
    'place: for _place in 0..BOARD_PLACES {
        boxes.push(Some(Box::new(alloc, Alarm::new())?))?;
    }
    Ok(board_of(boxes))
}

// The standard input: a text.
fn input_of(alloc: Global, streams: &Streams, text: Vec<u8>) -> Result<MemSource, Fail> {
    let fails = [u64::from(streams.read)].to_vec(alloc)?;
    Ok(MemSource::new(text, (streams.piece as usize).max(1), fails))
}

// The output.
fn out_of(alloc: Global, streams: &Streams) -> Result<MemSink, Fail> {
    let fails = [u64::from(streams.write)].to_vec(alloc)?;
    let taken = (streams.taken as usize).max(1);
    Ok(MemSink::new(alloc, streams.room as usize, taken, fails)?)
}

/// Runs the program over a text, with a shelf and a board. No link comes.
pub fn run_beside<R: Threads + Wait + Sync, F: Shelf, B: Seen>(
    rt: &R,
    alloc: Global,
    streams: &Streams,
    line: &str,
    text: Vec<u8>,
    shelf: &mut F,
    board: &mut B,
) -> Result<Ran, Fail>
    requires { IsFullBoard (B.places board.old) }
{
    let mut door = MemDoor::new(Vec::new(alloc), Vec::new(alloc));
    run_at(rt, alloc, streams, line, text, shelf, &mut door, board)
}

/// Runs the program over a text, with a shelf, a door and a board.
pub fn run_at<R: Threads + Wait + Sync, F: Shelf, D: Door, B: Seen>(
    rt: &R,
    alloc: Global,
    streams: &Streams,
    line: &str,
    text: Vec<u8>,
    shelf: &mut F,
    door: &mut D,
    board: &mut B,
) -> Result<Ran, Fail>
where
    D::Link: Send,
    requires { IsFullBoard (B.places board.old) }
{
    let words = words_of(alloc, line)?;
    let mut input = input_of(alloc, streams, text)?;
    let mut out = out_of(alloc, streams)?;
    let mut err = MemSink::new(alloc, streams.err as usize, 1_000, Vec::new(alloc))?;
    let mut remains = Remains::none();
    let status = run(
        rt,
        alloc,
        &words,
        &mut input,
        &mut out,
        &mut err,
        shelf,
        door,
        board,
        &mut remains,
    );
    Ok(Ran { status, out, err })
}

/// Asserts what a run ended with.
pub fn expect(rt: &impl Abort, ran: &Ran, name: &str, status: u8, out: &[u8], err: &[u8]) {
    assert_eq!(rt; ran.status, status, "{name}");
    assert_eq!(rt; ran.out.written(), out, "{name}");
    assert_eq!(rt; ran.err.written(), err, "{name}");
}

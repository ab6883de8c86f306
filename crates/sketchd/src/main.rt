//! The program `sketchd`: the words of its command line, its standard streams, the files and the network, over
//! `sk_cli`.
#![tactic(auto)]

use sk_cli::{BOARD_PLACES, Remains, Verb, board_of, run};
use sk_decimal::{Digits, Line, Rounding};
use sk_io::{Door, FileShelf, Shelf, Sink, Source, StdSink, StdSource, words_of, write_all};
use sk_model::OutOfMemory;
use sk_net::TcpDoor;
use sk_typed::{Typed, show_help};
use sk_watch::{Alarm, Watcher};
use std::alloc::Global;
use std::io::writer;
use std::process::ExitCode;
use std::rt::Env;
use std::sync::Wait;
use std::thread::Threads;

const OUT_OF_MEMORY: u8 = 1;

const WRITE_FAULT: u8 = 4;

// The status for want of memory, which is said as far as standard error takes it.
fn out_of_memory<E: Sink>(err: &mut E) -> u8 {
    let _ = write_all(err, b"out of memory\n");
    OUT_OF_MEMORY
}

// The status of a failed write, likewise.
fn write_fault<E: Sink>(err: &mut E) -> u8 {
    let _ = write_all(err, b"write fault\n");
    WRITE_FAULT
}

// What the words of the command line stand for.
fn typed_words(rt: &impl Env, alloc: Global) -> Result<Typed, OutOfMemory> {
    Typed::of(alloc, &words_of(rt, alloc)?)
}

// Writes the help of one command.
fn help<O: Sink, E: Sink>(verb: Verb, out: &mut O, err: &mut E) -> u8 {
    match show_help(verb, out) {
        Ok(()) => 0,
        Err(_) => write_fault(err),
    }
}

// What a run reads and serves.
#[derive(Drop)]
struct Reads<S, F, D> {
    input: S,
    shelf: F,
    door: D,
}

// Runs the program over these words.
fn perform<R: Threads + Wait + Sync, S: Source, O: Sink, E: Sink, F: Shelf, D: Door>(
    rt: &R,
    alloc: Global,
    words: &[String],
    reads: &mut Reads<S, F, D>,
    out: &mut O,
    err: &mut E,
) -> Result<u8, OutOfMemory>
where
    D::Link: Send,
{
    let mut boxes: Vec<Option<Box<dyn Watcher>>> = Vec::new(alloc);
    'place: for _place in 0..BOARD_PLACES {
        boxes.push(Some(Box::new(alloc, Alarm::new())?))?;
    }
    let mut board = board_of(boxes);
    let mut remains = Remains::none();
    Ok(run(
        rt,
        alloc,
        words,
        &mut reads.input,
        out,
        err,
        &mut reads.shelf,
        &mut reads.door,
        &mut board,
        &mut remains,
    ))
}

// The same, with this many digits after the point of each number that is written in place of a fraction.
fn perform_rounded<R: Threads + Wait + Sync, S: Source, O: Sink + Drop, E: Sink, F: Shelf, D: Door>(
    rt: &R,
    alloc: Global,
    words: &[String],
    digits: Digits,
    reads: &mut Reads<S, F, D>,
    out: O,
    err: &mut E,
) -> Result<u8, OutOfMemory>
where
    D::Link: Send,
{
    let mut rounding = Rounding::new(out, Line::new(alloc)?, digits);
    let status = perform(rt, alloc, words, reads, &mut rounding, err)?;
    match rounding.finish() {
        (_, Err(_)) if status == 0 => Ok(write_fault(err)),
        _ => Ok(status),
    }
}

fn main(rt: HostRuntime) -> ExitCode {
    let alloc = rt.alloc();
    let (stdout, stderr) = (rt.stdout(), rt.stderr());
    let mut err = StdSink::new(writer(&stderr));
    let mut out = StdSink::new(writer(&stdout));
    let mut reads = Reads {
        input: StdSource::new(rt.stdin()),
        shelf: FileShelf::new(&rt),
        door: TcpDoor::new(&rt, alloc),
    };
    let ended = match typed_words(&rt, alloc) {
        Ok(Typed::Words(words)) => perform(&rt, alloc, &words, &mut reads, &mut out, &mut err),
        Ok(Typed::Rounded(digits, words)) => {
            perform_rounded(&rt, alloc, &words, digits, &mut reads, out, &mut err)
        }
        Ok(Typed::HelpOf(verb)) => Ok(help(verb, &mut out, &mut err)),
        Err(OutOfMemory) => Err(OutOfMemory),
    };
    match ended {
        Ok(status) => ExitCode::from(status),
        Err(OutOfMemory) => ExitCode::from(out_of_memory(&mut err)),
    }
}

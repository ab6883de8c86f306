//! Takes n steps of a table with one updater, or updates of a sketch and of a hub, for `bench/steps` to time.
//! The words are a kind (`asks`, `turns` or `exchanges`, `sketch` or `hub`, of Count-Min `tallies` or `tallyhub`, of
//! quantiles `quantiles` or `quantilehub`) and a number; without words nothing is done. `lines 0` and `numbers 0` count
//! the lines of the standard input by the sketch alone, and `reads N` reads N ranks while four updaters run, and prints
//! how many items these took. `scale THREADS DISTINCT N` takes N updates of a hub by that many threads, and prints what
//! is published in the end.
#![tactic(auto)]

mod direct;
mod quantiles;
mod ranks;
mod scale;
mod tallies;
mod updates;
mod versions;

ghost use Rattle.std.specs.Prelude.{◌≡◌, true, false, IfOk};
ghost use Rattle.sk_gate.specs.Views.{leads};

use crate::scale::Load;
use sk_compose::{Buffer, OutOfMemory, Parcel};
use sk_gate::{HeartSeat, Made, TokenSeat, make};
use sk_io::StdSource;
use sk_read::Kind;
use sk_theta::{Reply, Theta};
use std::alloc::Global;
use std::env;
use std::process::ExitCode;
use std::sync::Wait;

// A table with one updater, whose buffers have room for one item.
#[tactic(auto, unfolding(sk_model::specs::Entries::items_of_entries))]
fn table(alloc: Global) -> Result<Made<Theta>, OutOfMemory>
    ensures free { IfOk result (λ made. leads made.heart.view.duty ≡ false) }
{
    let global = Theta::new(alloc, 2)?;
    let buffer = Buffer::new(alloc, 1)?;
    let parcels = vec![in alloc; Parcel { buffer, told: None }]?;
    make(alloc, 1, 1, global, parcels)
}

// Loads the published word `count` times.
fn ask(token: &mut TokenSeat<Theta>, count: u64) {
    'ask: for _ in 0..count {
        let _ = token.ask();
    }
}

// Takes the turn `count` times, each a compare-exchange that finds 0, and yields it by a store.
fn turn(heart: &mut HeartSeat<Theta>, count: u64)
    requires free { leads heart.old.view.duty ≡ false }
{
    'turn: for _ in 0..count {
        if heart.turn().is_ok() {
            heart.yield_turn();
        }
    }
}

// Exchanges the trunk's slot `count` times, there and back.
fn exchange(heart: &mut HeartSeat<Theta>, count: u64)
    requires free { leads heart.old.view.duty ≡ false }
{
    if heart.turn().is_err() {
        return;
    }
    'exchange: for _ in 0..count {
        let trunk = heart.lift();
        heart.lay(trunk);
    }
}

fn outcome(done: Option<Result<(), OutOfMemory>>) -> ExitCode {
    match done {
        Some(Ok(())) => ExitCode::SUCCESS,
        Some(Err(OutOfMemory)) | None => ExitCode::FAILURE,
    }
}

// How lines become items, if they are to be counted.
fn kind_of(word: &str) -> Option<Kind> {
    match word {
        "lines" => Some(Kind::Hash(0)),
        "numbers" => Some(Kind::Raw),
        _ => None,
    }
}

// Counts the lines of the standard input by the sketch alone.
fn count_lines(rt: &HostRuntime, kind: Kind) -> ExitCode {
    let Ok((n, d)) = direct::count(rt.alloc(), kind, &mut StdSource::new(rt.stdin())) else {
        return ExitCode::FAILURE;
    };
    match println!(rt; "estimate {n}/{d}") {
        Ok(()) => ExitCode::SUCCESS,
        Err(_) => ExitCode::FAILURE,
    }
}

// Prints how many items were taken.
fn print_taken(rt: &HostRuntime, taken: Result<u64, OutOfMemory>) -> ExitCode {
    let Ok(taken) = taken else {
        return ExitCode::FAILURE;
    };
    match println!(rt; "items {taken}") {
        Ok(()) => ExitCode::SUCCESS,
        Err(_) => ExitCode::FAILURE,
    }
}

// The load of `scale`, of these three numbers.
fn load_of(threads: u64, distinct: Option<u64>, count: Option<u64>) -> Option<Load> {
    let threads = u32::try_from(threads).ok()?;
    let each = count?.checked_div(u64::from(threads))?;
    Some(Load {
        threads,
        distinct: distinct?,
        each,
    })
}

// Prints what is published.
fn print_reply(rt: &HostRuntime, reply: Result<Reply, OutOfMemory>) -> ExitCode {
    let Ok(reply) = reply else {
        return ExitCode::FAILURE;
    };
    match println!(rt; "count {} theta {}", reply.count, reply.theta) {
        Ok(()) => ExitCode::SUCCESS,
        Err(_) => ExitCode::FAILURE,
    }
}

// The number that a word spells, if there is one.
fn number_of(word: Option<String>) -> Option<u64> {
    word?.parse().ok()
}

// Takes `count` steps of this kind of a table.
fn take_steps(alloc: Global, kind: &str, count: u64) -> Result<(), OutOfMemory> {
    let mut made = table(alloc)?;
    match kind {
        "asks" => ask(&mut made.token, count),
        "turns" => turn(&mut made.heart, count),
        _ => exchange(&mut made.heart, count),
    }
    Ok(())
}

// Takes `count` steps of a table, or updates of a sketch or a hub, if there is such a kind.
fn take<R: Wait>(
    rt: &R,
    alloc: Global,
    kind: &str,
    distinct: u64,
    count: u64,
) -> Option<Result<(), OutOfMemory>> {
    match kind {
        "asks" | "turns" | "exchanges" => Some(take_steps(alloc, kind, count)),
        "sketch" => Some(updates::sketch(alloc, distinct, count)),
        "hub" => Some(updates::hub(rt, alloc, distinct, count)),
        "tallies" => Some(tallies::sketch(alloc, distinct, count)),
        "tallyhub" => Some(tallies::hub(rt, alloc, distinct, count)),
        "quantiles" => Some(quantiles::sketch(alloc, distinct, count)),
        "quantilehub" => Some(quantiles::hub(rt, alloc, distinct, count)),
        _ => None,
    }
}

fn main(rt: HostRuntime) -> ExitCode {
    let Ok(mut words) = env::args(&rt) else {
        return ExitCode::FAILURE;
    };
    let _program = words.next();
    let Some(kind) = words.next() else {
        return ExitCode::SUCCESS;
    };
    if let Some(kind) = kind_of(kind.as_str()) {
        return count_lines(&rt, kind);
    }
    let Some(count) = number_of(words.next()) else {
        return ExitCode::FAILURE;
    };
    let (second, third) = (number_of(words.next()), number_of(words.next()));
    match kind.as_str() {
        "reads" => print_taken(&rt, ranks::reads(&rt, rt.alloc(), count)),
        "scale" => match load_of(count, second, third) {
            Some(load) => print_reply(&rt, scale::updates(&rt, rt.alloc(), load)),
            None => ExitCode::FAILURE,
        },
        kind => outcome(take(&rt, rt.alloc(), kind, second.unwrap_or(count), count)),
    }
}

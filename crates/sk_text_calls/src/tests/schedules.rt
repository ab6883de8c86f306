ghost use Rattle.std.specs.Prelude.{◌≡◌, ◌++◌, if◌then◌else◌};
ghost use Rattle.sk_core.specs.Texts.{answer_text};

use super::expect;
use sk_core::*;
use sk_model::OutOfMemory;
use std::alloc::Global;
use std::test::Fail;

// What a first line starts, with updaters or without.
fn start(alloc: Global, line: &str) -> Result<Option<State>, OutOfMemory> {
    match read_machine(line.as_bytes()) {
        Some((k, b, n)) => Ok(Some(State::new(alloc, k, b, n)?)),
        None => start_vacant(alloc, line),
    }
}

fn start_vacant(alloc: Global, line: &str) -> Result<Option<State>, OutOfMemory> {
    match read_vacant(line.as_bytes()) {
        Some((k, n)) => Ok(Some(State::vacant(alloc, k, n)?)),
        None => Ok(None),
    }
}

// Whether there was memory for an answer. If not, the text stays.
fn is_told(text: &mut Vec<u8>, answer: &Answer) -> bool
    ensures { text.new.items ≡ (if result then text.old.items ++ answer_text answer.now else text.old.items) }
{
    push_answer(text, answer).is_ok()
}

// Appends the answer to a line, or tells that it is none or that its event is not enabled.
fn answer(state: &mut State, line: &str, text: &mut Vec<u8>) -> Result<bool, OutOfMemory> {
    let Some(event) = read_event(line.as_bytes()) else {
        return Ok(false)
    };
    let Ok(answer) = state.step(&event) else {
        return Ok(false)
    };
    if !is_told(text, &answer) {
        return Err(OutOfMemory);
    }
    text.push(b';')?;
    Ok(true)
}

// The answers to the lines of a schedule after the first, each with a mark after it, up to the first bad line.
fn replay(alloc: Global, first: &str, events: &str) -> Result<Vec<u8>, Fail> {
    let mut text = Vec::new(alloc);
    let Some(mut state) = start(alloc, first)? else {
        return Ok(text)
    };
    for line in events.lines() {
        if !answer(&mut state, line, &mut text)? {
            text.extend_from_slice(b"bad")?;
            break;
        }
    }
    Ok(text)
}

// A batch is handed over and returned, and a hand needs a swap; an updater comes late. Whole runs with `replay` show
// the rest.
#[test]
fn schedules_are_answered(rt: HostRuntime) -> Result<(), Fail> {
    let alloc = rt.alloc();
    let events =
        "offer 0 3\noffer 0 5\nlook 0\nswap 0\nhand 0\nfind 0\ntake 0\npublish 0\nask 0\nlook 0\n\
        put 0\nreturn 0\nlook 0\noffer 0 5\noffer 0 4\nhand 0\n";
    let said = "kept;kept;hint 9223372036854775808;swapped;handed 2;waiting;took 2;published 2;\
        estimate 9223372036854775808/5;busy;put;returned 5;hint 5;filtered;kept;bad";
    let got = replay(alloc, "machine 2 2 1", events)?;
    expect(&rt, got.as_slice(), said.as_bytes());
    let got = replay(alloc, "vacant 2 2", "admit 1 1\noffer 1 5\n")?;
    expect(&rt, got.as_slice(), b"admitted;kept;".as_slice());
    Ok(())
}

// Whether an item that is offered is kept, if it may be offered.
fn offer(state: &mut State, item: u64) -> Option<bool> {
    match state.step(&Event::Offer(0, item)) {
        Ok(Answer::Kept) => Some(true),
        Ok(Answer::Filtered) => Some(false),
        _ => None,
    }
}

#[test]
fn offers_at_the_ends_of_the_items(rt: HostRuntime) -> Result<(), Fail> {
    let mut state = State::new(rt.alloc(), 2, 2, 1)?;
    expect(&rt, offer(&mut state, 0), None);
    expect(&rt, offer(&mut state, 1), Some(true));
    expect(&rt, offer(&mut state, (1 << 63) - 1), Some(true));
    expect(&rt, offer(&mut state, 2), None);
    expect(&rt, offer(&mut state, 1 << 63), Some(false));
    Ok(())
}

// The command that plays a schedule.
ghost use Rattle.std.specs.Prelude.{◌≡◌, ◌≤◌, OnOk, IfOk, MatchOption};
ghost use Rattle.std.specs.Option.{option_map};
ghost use Rattle.sk_model.specs.Limits.{source_limit};
ghost use Rattle.sk_core.specs.Stored.{machine_of};
ghost use Rattle.sk_cli.specs.Beside.{Beside};
ghost use Rattle.sk_cli.specs.Outside.{streams_of};
ghost use Rattle.sk_cli.specs.Run.{Executes, HasCauses};
ghost use Rattle.sk_cli.specs.commands.Replay.{start_of, started, MeetsThere, answer_line, IsPlay, IsNoPlay, IsNoMore, IsAnswered, LedTo, led_is_due, replaying};

use crate::answering::{Answerer, answer_lines};
use crate::fault::Fault;
use sk_core::{Answer, State, push_answer, read_event, read_machine, read_vacant};
use sk_io::{Sink, Source};
use sk_model::OutOfMemory;
use sk_read::LineReader;
use std::alloc::Global;

// The machine that a first line names, if it names one.
fn start(alloc: Global, line: &[u8]) -> Result<Option<State>, OutOfMemory>
    ensures value { IfOk result (λ state. option_map started state ≡ start_of line.now) }
    ensures invariant { IfOk result MeetsThere }
{
    if let Some((k, b, n)) = read_machine(line) {
        return Ok(Some(State::new(alloc, k, b, n)?));
    }
    match read_vacant(line) {
        Some((k, n)) => Ok(Some(State::vacant(alloc, k, n)?)),
        None => Ok(None),
    }
}

// Plays the event of a line, if it names one that is enabled.
fn play(line: &[u8], state: &mut State) -> Option<Answer>
    ensures answer { MatchOption result (IsNoPlay line.now (machine_of state.old))
        (λ answer. IsPlay line.now state.old.k (machine_of state.old) answer (machine_of state.new)) }
    ensures sketch { state.new.k ≡ state.old.k }
{
    let event = read_event(line)?;
    state.step(&event).ok()
}

// Makes the text the line of an answer.
fn set_line(text: &mut Vec<u8>, answer: &Answer) -> Result<(), OutOfMemory>
    ensures { OnOk result (text.new.items ≡ answer_line answer.now) }
{
    text.clear();
    push_answer(text, answer)?;
    text.push(b'\n')?;
    Ok(())
}

// Who plays the events of a schedule.
#[derive(Drop)]
struct Player {
    state: State,
    line: Vec<u8>,
}

impl Answerer for Player {
    ghost how = { λ _. replaying };

    ghost due = { λ _. IsAnswered };

    ghost led = { λ player. LedTo player.state };

    ghost refuses = { IsNoMore };

    ghost is_due = { λ player. led_is_due player.state };

    fn answer(&mut self, line: &[u8], text: &mut Vec<u8>) -> Result<bool, OutOfMemory> {
        let Some(answer) = play(line, &mut self.state) else {
            return Ok(false);
        };
        set_line(&mut self.line, &answer)?;
        text.extend_from_slice(&self.line)?;
        Ok(true)
    }
}

/// Plays a schedule, and writes the answer to each event before more is read.
pub fn replay<S: Source, O: Sink>(
    alloc: Global,
    most: u64,
    source: &mut S,
    out: &mut O,
) -> Result<(), Fault>
    requires bound { most ≤ source_limit }
    ensures done { (from to : Beside) → let old = streams_of S.Source O.Sink source.old out.old in
        let new = streams_of S.Source O.Sink source.new out.new in Executes replaying most from to old new result }
    ensures causes { let old = streams_of S.Source O.Sink source.old out.old in
        let new = streams_of S.Source O.Sink source.new out.new in HasCauses old new result }
    ensures stays { S.stands_on source.new ≡ S.stands_on source.old }
{
    let mut reader = LineReader::new(alloc, most)?;
    if !reader.next(source)? {
        return Err(Fault::BadEvent(1));
    }
    let Some(state) = start(alloc, reader.line())? else {
        return Err(Fault::BadEvent(1));
    };
    let mut player = Player {
        state,
        line: Vec::new(alloc),
    };
    answer_lines(alloc, &mut reader, &mut player, source, out)
}

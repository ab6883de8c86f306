//! A schedule that is played on the machine, event by event.
ghost use Rattle.std.specs.Prelude.{◌≡◌, ◌<◌, ◌≤◌, length, take, slice_index_or, IfOk, OnErr};
ghost use Rattle.sk_core.specs.Stored.{machine_of};
ghost use Rattle.sk_core.specs.Events.{IsEnabled};
ghost use Rattle.sk_core.specs.Runs.{IsRun};

use sk_core::{Answer, Event, State};
use sk_model::OutOfMemory;
use std::alloc::Global;

/// Plays events, in order, up to the first that is not enabled, and gives the answer to each that
/// was played. At `OutOfMemory` none was played.
pub fn replay(
    alloc: Global,
    state: &mut State,
    events: &[Event],
) -> Result<Vec<Answer>, OutOfMemory>
    ensures run { IfOk result (λ answers.
        IsRun state.old.k (take (length answers.items) events.now) answers.items
        (machine_of state.old) (machine_of state.new)) }
    ensures within { IfOk result (λ answers. length answers.items ≤ length events.now) }
    ensures stopped { IfOk result (λ answers. (d : _) → length answers.items < length events.now
        → ¬ IsEnabled (slice_index_or events.now (length answers.items) d) (machine_of state.new)) }
    ensures sketch { state.new.k ≡ state.old.k }
    ensures unchanged { OnErr result (state.new ≡ state.old) }
{
    let mut answers = Vec::with_capacity(alloc, events.len())?;
    'event: for event in events {
        let Ok(answer) = state.step(event) else {
            return Ok(answers);
        };
        answers.push_reserved(answer);
    }
    Ok(answers)
}

//! Rounds of whoever propagates.
ghost use Rattle.std.specs.Prelude.{◌≡◌, ℕ, ◌+◌, ◌*◌, ◌<◌, ◌≤◌, ◌^◌, ◌++◌, ◌∷◌, [], List, length, true, false, IsTrue, IfOk, IfErr};
ghost use Rattle.sk_machine.specs.declared.views.Move.{Move};
ghost use Rattle.sk_machine.specs.declared.views.Move.TheVariants.{Find};
ghost use Rattle.sk_gate.specs.Slots.{sketching};
ghost use Rattle.sk_gate.specs.Views.{batch_of};
ghost use Rattle.sk_gate.specs.Hands.{IsTrunk};
ghost use Rattle.sk_gate.specs.Merge.{CarriesBatch};
ghost use Rattle.sk_hub.specs.Updaters.{IsFree};
ghost use Rattle.sk_hub.specs.Rounds.{PublishesBatch, FinishesHeld, ServesOne, ServesEach, Advances, KnowsAsMuch, IsElsewhere, TriesTheTurn, Serves, Refuses};
ghost use Rattle.sk_hub.specs.Turns.{IsLifted, IsResumed, IsRefused, RefusesAfter};
ghost use Rattle.sk_model.specs.Limits.{most_size, most_updaters};

use sk_compose::{Composable, Parcel};
use sk_gate::{Held, OutOfMemory, Propagator, Role, Trunk, merge_batch};
use std::sync::Wait;

/// How many items were published, of a batch that was held, and of those that were found.
#[derive(Clone, Copy)]
pub(crate) struct Done {
    pub held: u32,
    pub found: u32,
}

/// Why a round was not taken to its end.
#[derive(Clone, Copy)]
pub(crate) enum Stopped {
    Elsewhere(u32),
    OutOfMemory,
}

// Merges a batch and publishes it. It gives how many items it has. A batch that is refused is held.
fn publish_batch<C: Composable, P: Role, R: Wait>(
    rt: &R,
    seat: &mut Propagator<C, P>,
    trunk: &mut Trunk<C>,
    i: u32,
    parcel: Parcel<C::Told>,
) -> Result<u32, OutOfMemory>
    requires carries { CarriesBatch (sketching C.is_of C.numbers C.name) seat.old i trunk.old parcel }
    requires some { 0 < length (batch_of seat.old.view) }
    ensures steps { IfOk result (λ count. (steps : List Move) × PublishesBatch i count steps × Advances seat.old.view steps seat.new.view) }
    ensures some { IfOk result (λ count. 0 < count) }
    ensures few { IfOk result (λ count. count ≤ most_size) }
    ensures idle { IfOk result (λ _. IsLifted (sketching C.is_of C.numbers C.name) seat.new trunk.new) }
    ensures refused { IfErr result (λ _. seat.new ≡ seat.old) }
    ensures held { IfErr result (λ _. IsTrunk seat.old.view (sketching C.is_of C.numbers C.name) trunk.new) }
    ensures cause { IfErr result (λ _. IsTrue C.TAKES_MEMORY) }
    ensures seat { seat.new ≡ record seat.old { view = seat.new.view } }
{
    merge_batch(rt, seat, trunk, i, parcel)
}

// Publishes a batch that the trunk held, if there is one.
fn finish_held<C: Composable, P: Role, R: Wait>(
    rt: &R,
    seat: &mut Propagator<C, P>,
    trunk: &mut Trunk<C>,
) -> Result<u32, OutOfMemory>
    requires resumed { IsResumed (sketching C.is_of C.numbers C.name) seat.old trunk.old }
    ensures steps { IfOk result (λ count. (steps : List Move) × FinishesHeld count steps × Advances seat.old.view steps seat.new.view) }
    ensures few { IfOk result (λ count. count ≤ most_size) }
    ensures idle { IfOk result (λ _. IsLifted (sketching C.is_of C.numbers C.name) seat.new trunk.new) }
    ensures refused { IfErr result (λ _. seat.new ≡ seat.old) }
    ensures held { IfErr result (λ _. IsResumed (sketching C.is_of C.numbers C.name) seat.old trunk.new) }
    ensures cause { IfErr result (λ _. IsTrue C.TAKES_MEMORY) }
    ensures seat { seat.new ≡ record seat.old { view = seat.new.view } }
{
    match trunk.held.take() {
        None => Ok(0),
        Some(Held { i, parcel }) => publish_batch(rt, seat, trunk, i, parcel),
    }
}

// Serves one updater. It gives how many items were published, 0 where nothing waited.
fn serve_one<C: Composable, P: Role, R: Wait>(
    rt: &R,
    seat: &mut Propagator<C, P>,
    trunk: &mut Trunk<C>,
    i: u32,
) -> Result<u32, OutOfMemory>
    requires within { i < length seat.old.view.sizes }
    requires idle { IsLifted (sketching C.is_of C.numbers C.name) seat.old trunk.old }
    ensures steps { IfOk result (λ count. (steps : List Move) × ServesOne i count steps × Advances seat.old.view steps seat.new.view) }
    ensures few { IfOk result (λ count. count ≤ most_size) }
    ensures idle { IfOk result (λ _. IsLifted (sketching C.is_of C.numbers C.name) seat.new trunk.new) }
    ensures found { IfErr result (λ _. Advances seat.old.view (Find i 0 ∷ []) seat.new.view) }
    ensures held { IfErr result (λ _. IsRefused (sketching C.is_of C.numbers C.name) i seat.new trunk.new) }
    ensures cause { IfErr result (λ _. IsTrue C.TAKES_MEMORY) }
    ensures seat { seat.new ≡ record seat.old { view = seat.new.view } }
{
    if seat.find(i) != 0 {
        return Ok(0);
    }
    let parcel = seat.take(i);
    publish_batch(rt, seat, trunk, i, parcel)
}

// Serves this many updaters from this one on. An `Err` has the number of the one whose batch was refused.
fn serve_each<C: Composable, P: Role, R: Wait>(
    rt: &R,
    seat: &mut Propagator<C, P>,
    trunk: &mut Trunk<C>,
    from: u32,
    updaters: u32,
) -> Result<u32, u32>
    requires within { from + updaters ≤ length seat.old.view.sizes }
    requires few { from + updaters ≤ most_updaters }
    requires idle { IsLifted (sketching C.is_of C.numbers C.name) seat.old trunk.old }
    ensures steps { IfOk result (λ count. (steps : List Move) × ServesEach from updaters count steps × Advances seat.old.view steps seat.new.view) }
    ensures few { IfOk result (λ count. count ≤ most_size * updaters) }
    ensures idle { IfOk result (λ _. IsLifted (sketching C.is_of C.numbers C.name) seat.new trunk.new) }
    ensures found { IfErr result (λ i. RefusesAfter seat.old.view from updaters i seat.new.view) }
    ensures held { IfErr result (λ i. IsRefused (sketching C.is_of C.numbers C.name) i seat.new trunk.new) }
    ensures cause { IfErr result (λ _. IsTrue C.TAKES_MEMORY) }
    ensures seat { seat.new ≡ record seat.old { view = seat.new.view } }
{
    let mut count = 0;
    'each: for served in 0..updaters {
        match serve_one(rt, seat, trunk, from + served) {
            Ok(more) => count += more,
            Err(_) => return Err(from + served),
        }
    }
    Ok(count)
}

// Takes the turn, finishes a batch that was held, serves this many updaters from this one on, and yields.
#[tactic(auto, using(crate::proofs::Steps::turns_elsewhere, crate::proofs::Steps::turns_taken))]
pub(crate) fn propagate<C: Composable, P: Role, R: Wait>(
    rt: &R,
    seat: &mut Propagator<C, P>,
    from: u32,
    updaters: u32,
) -> Result<Done, Stopped>
    requires free { IsFree seat.old }
    requires within { from + updaters ≤ length seat.old.view.sizes }
    requires few { from + updaters ≤ most_updaters }
    ensures serves { IfOk result (λ done. Serves seat.old.view from updaters done.held done.found seat.new.view) }
    ensures few { IfOk result (λ done. done.held + done.found < 2 ^ 32) }
    ensures elsewhere { (other : ℕ) → result ≡ Err (Stopped.Elsewhere other) → IsElsewhere seat.old.view other seat.new.view }
    ensures refused { result ≡ Err Stopped.OutOfMemory → Refuses seat.old.view from updaters seat.new.view }
    ensures cause { result ≡ Err Stopped.OutOfMemory → IsTrue C.TAKES_MEMORY }
    ensures turn { TriesTheTurn seat.old.view seat.new.view }
    ensures knows { KnowsAsMuch seat.old.view seat.new.view }
    ensures seat { seat.new ≡ record seat.old { view = seat.new.view } }
{
    if let Err(other) = seat.turn() {
        return Err(Stopped::Elsewhere(other));
    }
    let mut trunk = seat.lift();
    let Ok(held) = finish_held(rt, seat, &mut trunk) else {
        seat.lay(trunk);
        seat.yield_turn();
        return Err(Stopped::OutOfMemory);
    };
    match serve_each(rt, seat, &mut trunk, from, updaters) {
        Ok(found) => {
            seat.lay(trunk);
            seat.yield_turn();
            Ok(Done { held, found })
        }
        Err(i) => {
            seat.lay(trunk);
            seat.leave(i);
            seat.yield_turn();
            Err(Stopped::OutOfMemory)
        }
    }
}

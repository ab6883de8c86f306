//! What is done for a request.
ghost use Rattle.std.specs.Prelude.{◌≡◌, ◌⊎◌, ℕ, ◌+◌, ◌<◌, ◌≤◌, [], length, IsNone, IfSome};
ghost use Rattle.std.specs.Bool.{OnTrue, OnFalse};
ghost use Rattle.sk_compose.specs.Numbers.{k_of};
ghost use Rattle.sk_hub.specs.Updaters.{kept_of};
ghost use Rattle.sk_hub.specs.Calls.{KeepsNone};
ghost use Rattle.sk_model.specs.Limits.{least_k, most_k, most_kept};
ghost use Rattle.sk_model.specs.Murmur.{hash_of};
ghost use Rattle.sk_line.specs.Pumps.{HasRisen};
ghost use Rattle.sk_line.specs.Requests.{client_request};
ghost use Rattle.sk_line.specs.Serving.{AnswersAdd, AnswersAsk, AnswersSync, AnswersRequest, HandsInVain, IsHelped};

use crate::answers::Answer;
use crate::pumps::Pump;
use crate::requests::Request;
use sk_compose::ThetaWord;
use sk_hash::hash63;
use sk_hub::{Flush, Settle, Update, Updater};
use sk_theta::{Shape, unpack};
use std::sync::Wait;

/// Does what a line asks for. The line that ends the session has no answer.
pub(crate) fn serve<P: Pump<C>, C: ThetaWord, R: Wait>(
    rt: &R,
    line: &[u8],
    u: &mut Updater<C>,
    pump: &mut P,
    shape: &Shape,
) -> Option<Answer>
    requires k { k_of u.old.view.numbers ≡ shape.now.k }
    requires room { length (kept_of u.old) < most_kept }
    ensures done { IfSome result (λ answer. AnswersRequest shape.now (client_request line.now) line.now answer u.old u.new) }
    ensures quit { IsNone result → client_request line.now ≡ Request.Quit }
    ensures left { IsNone result → u.new ≡ u.old }
    ensures helped { IfSome result (λ answer. (n : ℕ) × IsHelped (client_request line.now) u.old u.new (n + 1) × HasRisen n (P.pumps pump.old) (P.pumps pump.new)) }
    ensures pumps { HasRisen 0 (P.pumps pump.old) (P.pumps pump.new) }
    ensures stays { P.stands_on pump.new ≡ P.stands_on pump.old }
{
    match Request::of(line) {
        Request::Add => Some(add(u, shape.seed(), &line[4..], shape.k())),
        Request::Ask => Some(ask(u, shape.k())),
        Request::Sync => Some(sync(rt, u, pump)),
        Request::Quit => None,
        Request::Bad => Some(Answer::Bad),
    }
}

// Offers an item to the updater of a sketch that keeps k hashes.
fn add<C: ThetaWord>(u: &mut Updater<C>, seed: u32, bytes: &[u8], k: u32) -> Answer
    requires k { k_of u.old.view.numbers ≡ k }
    requires room { length (kept_of u.old) < most_kept }
    ensures { AnswersAdd k (hash_of seed bytes.now) result u.old u.new }
{
    // Its clause says what is true of every updater.
    let _number = u.number();
    match u.update(hash63(seed, bytes)) {
        Update::Filtered => Answer::Filtered,
        Update::Kept | Update::Handed => Answer::Kept,
        Update::Busy => Answer::Busy,
    }
}

// The estimate of what is published.
fn ask<C: ThetaWord>(u: &mut Updater<C>, k: u32) -> Answer
    requires k { k_of u.old.view.numbers ≡ k }
    requires least { least_k ≤ k }
    requires most { k ≤ most_k }
    ensures { AnswersAsk k result u.old u.new }
{
    let (n, d) = unpack(u.ask(), k).fraction(k);
    Answer::Estimate(n, d)
}

// Sees to it that all that was kept is published, if that needs no wait.
fn sync<P: Pump<C>, C: ThetaWord, R: Wait>(rt: &R, u: &mut Updater<C>, pump: &mut P) -> Answer
    ensures synced { AnswersSync result u.old u.new }
    ensures helped { HandsInVain u.old u.new ⊎ HasRisen 1 (P.pumps pump.old) (P.pumps pump.new) }
    ensures pumps { HasRisen 0 (P.pumps pump.old) (P.pumps pump.new) }
    ensures stays { P.stands_on pump.new ≡ P.stands_on pump.old }
{
    if !hand_over(u) {
        return Answer::Busy;
    }
    pump.pump(rt, u);
    match u.settle() {
        Settle::Settled => Answer::Synced,
        Settle::Busy => Answer::Busy,
    }
}

// Hands over what the fill buffer has, unless what was handed over last is not published.
fn hand_over<C: ThetaWord>(u: &mut Updater<C>) -> bool
    ensures handed { OnTrue result (KeepsNone u.old u.new × (u.new.fill ≡ [])) }
    ensures busy { OnFalse result (HandsInVain u.old u.new) }
{
    match u.flush() {
        Flush::Busy => false,
        Flush::Empty | Flush::Handed => true,
    }
}

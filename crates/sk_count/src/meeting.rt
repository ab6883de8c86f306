//! How a token meets the updaters of a hub, and asks.
ghost use Rattle.std.specs.Prelude.{◌≡◌, ◌<◌, ℕ, length, slice_index_or};
ghost use Rattle.sk_hub.specs.Updaters.{UpdaterState};
ghost use Rattle.sk_feed.specs.Hubs.{hub_of, IsHub, LeavesHub};
ghost use Rattle.sk_count.specs.Hubs.{AsksHub};
ghost use Rattle.sk_count.specs.Meets.{noted, MayMeet, MayMeetAll, Meets, MeetsFirst, AreNoted, split_off, Hears, FirstHear};

use sk_compose::Composable;
use sk_heap::HeapTheta;
use sk_hub::{Opened, Token, Updater};

/// Meets a note of every updater, in number order, and asks once. Then every updater meets a note of what the token saw:
/// this is then the start of each list that the hub publishes later.
pub(crate) fn meet_and_ask(opened: &mut Opened<HeapTheta>) -> u64
    requires hub { IsHub (hub_of opened.old) }
    ensures asks { AsksHub (hub_of opened.old) result (hub_of opened.new) }
    ensures leaves { LeavesHub (hub_of opened.old) (hub_of opened.new) }
    ensures hub { IsHub (hub_of opened.new) }
{
    let updaters = opened.updaters.as_mut_slice();
    meet_all(&mut opened.token, updaters);
    let word = opened.token.ask();
    give_notes(&mut opened.token, updaters);
    word
}

// Meets a note of each updater, in order.
fn meet_all<C: Composable>(token: &mut Token<C>, updaters: &mut [Updater<C>])
    requires may { MayMeetAll token.old updaters.old }
    ensures met { MeetsFirst token.old updaters.old (length updaters.old) token.new }
    ensures noted { AreNoted updaters.old (length updaters.old) updaters.new }
{
    'updater: for place in 0..updaters.len() {
        meet(token, &mut updaters[place]);
    }
}

// Meets a note of an updater.
fn meet<C: Composable>(token: &mut Token<C>, u: &mut Updater<C>)
    requires may { MayMeet token.old u.old }
    ensures met { Meets token.old u.old token.new }
    ensures noted { u.new ≡ noted u.old }
{
    // It shows the proof that no more items lie in its buffer than that has room for.
    let _number = u.number();
    token.meet(u.note());
}

// Gives each updater a note of the token, in order.
fn give_notes<C: Composable>(token: &mut Token<C>, updaters: &mut [Updater<C>])
    requires tables { (i : ℕ) (d : UpdaterState) → i < length updaters.old → (slice_index_or updaters.old i d).table ≡ token.old.table }
    ensures token { token.new ≡ split_off (length updaters.old) token.old }
    ensures heard { FirstHear token.old.view.seen updaters.old (length updaters.old) updaters.new }
{
    'updater: for place in 0..updaters.len() {
        give_note(token, &mut updaters[place]);
    }
}

// Gives an updater a note of the token.
fn give_note<C: Composable>(token: &mut Token<C>, u: &mut Updater<C>)
    requires table { u.old.table ≡ token.old.table }
    ensures token { token.new ≡ split_off 1 token.old }
    ensures heard { Hears token.old.view.seen u.old u.new }
{
    u.meet(token.note());
}

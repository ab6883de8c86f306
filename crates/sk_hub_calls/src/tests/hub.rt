ghost use Rattle.std.specs.Prelude.{◌≡◌, ◌≤◌, ℕ, [], IfOk};
ghost use Rattle.sk_model.specs.Entries.{items_of_entries};
ghost use Rattle.sk_theta.specs.Kept.{StandsFor};
ghost use Rattle.sk_gate.specs.Views.{known_of, size_of};
ghost use Rattle.sk_hub.specs.Updaters.{kept_of};
ghost use Rattle.sk_model.specs.Limits.{most_k, most_size};

mod beside;
mod callers;
mod refused;

use super::expect;
use crossbeam_utils::Backoff;
use sk_compose::Composable;
use sk_hub::*;
use sk_theta::{ITEM_END, Shape, Theta, unpack};
use std::alloc::Global;
use std::ops::Range;
use std::process::Abort;
use std::sync::Wait;
use std::test::Fail;
use std::thread;

// The handles of a hub of whose updaters the first is admitted.
struct Hub<C: Composable> {
    heart: Heart<C>,
    updater: Updater<C>,
    token: Token<C>,
}

fn hub_of<C: Composable>(alloc: Global, n: u32, b: u32, global: C) -> Result<Hub<C>, OutOfMemory>
    requires some { 1 ≤ n }
    requires least { 1 ≤ b }
    requires most { b ≤ most_size }
    requires fresh { C.is_of global [] }
    ensures kept { IfOk result (λ hub. kept_of hub.updater ≡ []) }
    ensures count { IfOk result (λ hub. hub.heart.updaters ≡ n) }
    ensures updater { IfOk result (λ hub. hub.updater.table ≡ hub.heart.table) }
    ensures token { IfOk result (λ hub. hub.token.table ≡ hub.heart.table) }
    ensures known { IfOk result (λ hub. (i : ℕ) → known_of hub.token.view i ≡ []) }
    ensures sizes { IfOk result (λ hub. (i : ℕ) → size_of hub.token.view i ≡ 0) }
{
    // Its k is not asked for: the sketch has its own.
    let Ok(shape) = Shape::new(8, b, n, 0, false) else {
        return Err(OutOfMemory);
    };
    let Opened {
        heart,
        mut updaters,
        token,
    } = open_sized(alloc, &shape, &[b], global)?;
    let updater = updaters.remove(0);
    Ok(Hub {
        heart,
        updater,
        token,
    })
}

#[tactic(auto, unfolding(sk_model::specs::Entries::items_of_entries))]
fn sketch(alloc: Global, k: u32) -> Result<Theta, OutOfMemory>
    requires least { 2 ≤ k }
    requires most { k ≤ most_k }
    ensures { IfOk result (λ s. StandsFor s (items_of_entries [])) }
{
    Theta::new(alloc, k)
}

// ---- calls, of which a test has to know the table only

// Updates with an item, where few were kept.
fn update<C: Composable, R: Abort>(rt: &R, updater: &mut Updater<C>, item: u64) -> Update
    ensures { updater.new.table ≡ updater.old.table }
{
    assert!(rt; (1..ITEM_END).contains(&item) && updater.taken() < 1_000);
    updater.update(item)
}

// Gives items to an updater, each with what it is to answer.
fn give<C: Composable, R: Abort>(rt: &R, updater: &mut Updater<C>, items: &[(u64, Update)])
    ensures { updater.new.table ≡ updater.old.table }
{
    'item: for (item, answer) in items {
        assert_eq!(rt; update(rt, updater, *item), *answer, "at {item}");
    }
}

fn flush<C: Composable>(updater: &mut Updater<C>) -> Flush
    ensures { updater.new.table ≡ updater.old.table }
{
    // By cases, of which each is proved in a step.
    match updater.flush() {
        Flush::Empty => Flush::Empty,
        Flush::Busy => Flush::Busy,
        Flush::Handed => Flush::Handed,
    }
}

fn settle<C: Composable>(updater: &mut Updater<C>) -> Settle
    ensures { updater.new.table ≡ updater.old.table }
{
    updater.settle()
}

fn admit<C: Composable, R: Abort>(rt: &R, alloc: Global, heart: &mut Heart<C>, b: u32) -> Updater<C>
    requires least { 1 ≤ b }
    requires most { b ≤ most_size }
    ensures heart { heart.new.table ≡ heart.old.table }
    ensures updater { result.table ≡ heart.new.table }
{
    match heart.admit(alloc, b) {
        Admit::Admitted(updater) => updater,
        Admit::Full => panic!(rt; "all updaters were admitted"),
        Admit::OutOfMemory => panic!(rt; "out of memory"),
    }
}

fn expect_full<C: Composable, R: Abort>(rt: &R, alloc: Global, heart: &mut Heart<C>)
    ensures { heart.new.table ≡ heart.old.table }
{
    match heart.admit(alloc, 1) {
        Admit::Full => {}
        Admit::Admitted(_) | Admit::OutOfMemory => panic!(rt; "not all updaters were admitted"),
    }
}

fn drain<C: Composable, R: Wait>(
    rt: &R,
    heart: &mut Heart<C>,
    updater: Updater<C>,
) -> Result<(), OutOfMemory>
    requires table { updater.table ≡ heart.old.table }
    ensures heart { heart.new.table ≡ heart.old.table }
{
    match heart.drain(rt, updater) {
        Drain::Drained => Ok(()),
        Drain::OutOfMemory(_) => Err(OutOfMemory),
    }
}

#[test]
fn a_full_buffer_waits_for_the_one_before(rt: HostRuntime) -> Result<(), Fail> {
    let Hub {
        mut heart,
        mut updater,
        token: _,
    } = hub_of(rt.alloc(), 1, 2, sketch(rt.alloc(), 8)?)?;
    let answers = [
        (1, Update::Kept),
        (2, Update::Handed),
        (3, Update::Kept),
        (4, Update::Kept),
        (5, Update::Busy),
    ];
    give(&rt, &mut updater, &answers);
    expect(&rt, unpack(updater.ask(), 8).count, 0);
    expect(&rt, settle(&mut updater), Settle::Busy);
    expect(&rt, heart.serve(&rt, 0), Serve::Served(2));
    give(&rt, &mut updater, &[(5, Update::Handed)]);
    drain(&rt, &mut heart, updater)?;
    expect(&rt, unpack(heart.ask(), 8).count, 5);
    Ok(())
}

#[test]
fn a_token_meets_a_note(rt: HostRuntime) -> Result<(), Fail> {
    let Hub {
        mut heart,
        mut updater,
        mut token,
    } = hub_of(rt.alloc(), 1, 2, sketch(rt.alloc(), 8)?)?;
    expect(&rt, flush(&mut updater), Flush::Empty);
    expect(&rt, heart.serve(&rt, 0), Serve::Nothing);
    expect(&rt, settle(&mut updater), Settle::Settled);
    give(&rt, &mut updater, &[(1, Update::Kept)]);
    expect(&rt, flush(&mut updater), Flush::Handed);
    expect(&rt, heart.sweep(&rt), Sweep::Swept(1));
    let word = callers::meet_and_ask(&mut token, &mut updater);
    expect(&rt, unpack(word, 8).count, 1);
    let mut second = token.split()?;
    expect(&rt, unpack(second.ask(), 8).count, 1);
    callers::give_note(&mut token, &mut updater);
    expect(&rt, unpack(updater.ask(), 8).count, 1);
    Ok(())
}

#[test]
fn an_updater_comes_late(rt: HostRuntime) -> Result<(), Fail> {
    let Hub {
        mut heart,
        mut updater,
        token: _,
    } = hub_of(rt.alloc(), 2, 2, sketch(rt.alloc(), 8)?)?;
    give(&rt, &mut updater, &[(1, Update::Kept)]);
    let mut late = admit(&rt, rt.alloc(), &mut heart, 1);
    expect(&rt, late.number(), 1);
    give(&rt, &mut late, &[(2, Update::Handed)]);
    expect_full(&rt, rt.alloc(), &mut heart);
    drain(&rt, &mut heart, updater)?;
    drain(&rt, &mut heart, late)?;
    expect(&rt, unpack(heart.ask(), 8).count, 2);
    Ok(())
}

// Updates with an item. Where there is no room for it, the updater helps and tries again.
fn update_helping<C: Composable, R: Abort + Wait>(rt: &R, updater: &mut Updater<C>, item: u64)
    ensures { updater.new.table ≡ updater.old.table }
{
    let backoff = Backoff::new();
    'turn: for _ in 0..10_000_000 {
        if update(rt, updater, item) != Update::Busy {
            return;
        }
        updater.help(rt);
        backoff.snooze();
    }
    panic!(rt; "there was no room for {item}");
}

fn update_all_helping<R: Abort + Wait>(
    rt: &R,
    updater: Updater<Theta>,
    items: Range<u64>,
) -> Updater<Theta>
    ensures { result.table ≡ updater.table }
{
    let mut updater = updater;
    'item: for item in items {
        update_helping(rt, &mut updater, item);
    }
    updater
}

// The heart admits an updater, whose items it then keeps, helping itself.
fn admit_and_update<R: Abort + Wait>(
    rt: &R,
    alloc: Global,
    heart: Heart<Theta>,
    items: Range<u64>,
) -> (Heart<Theta>, Updater<Theta>)
    ensures heart { result.0.table ≡ heart.table }
    ensures updater { result.1.table ≡ heart.table }
{
    let mut heart = heart;
    let late = admit(rt, alloc, &mut heart, 4);
    let late = update_all_helping(rt, late, items);
    (heart, late)
}

#[test]
fn an_updater_is_admitted_while_another_runs(rt: HostRuntime) -> Result<(), Fail> {
    let Hub {
        heart,
        updater: first,
        token: _,
    } = hub_of(rt.alloc(), 2, 4, sketch(rt.alloc(), 128)?)?;
    let (first, (mut heart, second)) = thread::join(
        &rt,
        || update_all_helping(&rt, first, 1..31),
        || admit_and_update(&rt, rt.alloc(), heart, 31..61),
    );
    drain(&rt, &mut heart, first)?;
    drain(&rt, &mut heart, second)?;
    expect(&rt, unpack(heart.ask(), 128).count, 60);
    Ok(())
}

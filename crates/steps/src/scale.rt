// Updates of one hub by threads, while its heart propagates in one more.
ghost use Rattle.std.specs.Prelude.{◌≡◌, ◌+◌, ◌<◌, ◌≤◌, length};
ghost use Rattle.std.specs.Bool.{OnTrue, OnFalse};
ghost use Rattle.sk_hub.specs.Updaters.{kept_of};
ghost use Rattle.sk_model.specs.Limits.{most_kept};
ghost use Rattle.sk_model.specs.Width.{IsItem};

use crate::updates::{BUFFER, FACTOR, K, item_at};
use crossbeam_utils::Backoff;
use sk_compose::OutOfMemory;
use sk_heap::HeapTheta;
use sk_hub::{Flush, Heart, Opened, Sweep, Update, Updater, open};
use sk_model::limits::MOST_KEPT;
use sk_theta::{ITEM_END, Reply, Shape, unpack};
use std::alloc::Global;
use std::sync::Wait;
use std::sync::atomic::AtomicBool;
use std::sync::atomic::Ordering::SeqCst;
use std::thread;
use std::thread::Threads;

/// How many threads there are, how many updates each has, and how many distinct items.
#[derive(Clone, Copy)]
pub struct Load {
    pub threads: u32,
    pub distinct: u64,
    pub each: u64,
}

// An item that no loop makes of the one before it by a sum, so that each costs the same in every program.
fn mixed_at(place: u64, distinct: u64) -> u64
    ensures { IsItem result }
{
    let item = item_at(place, distinct);
    ((item ^ (item >> 24)).wrapping_mul(FACTOR) % ITEM_END).max(1)
}

// Offers an item once, and returns whether it was taken.
#[inline(always)]
fn offer(updater: &mut Updater<HeapTheta>, item: u64) -> bool
    requires item { IsItem item }
    requires room { length (kept_of updater.old) < most_kept }
    ensures taken { OnTrue result (length (kept_of updater.new) ≤ length (kept_of updater.old) + 1) }
    ensures none { OnFalse result (kept_of updater.new ≡ kept_of updater.old) }
{
    match updater.update(item) {
        Update::Busy => false,
        Update::Filtered | Update::Kept | Update::Handed => true,
    }
}

// Offers an item until it is taken.
#[inline(never)]
fn insist<R: Wait>(rt: &R, updater: &mut Updater<HeapTheta>, item: u64)
    requires item { IsItem item }
    requires room { length (kept_of updater.old) < most_kept }
    ensures { length (kept_of updater.new) ≤ length (kept_of updater.old) + 1 }
{
    let backoff = Backoff::new();
    'again: for _ in rt.forever() {
        if offer(updater, item) {
            return;
        }
        backoff.snooze();
    }
    unreachable!()
}

// Hands over what is left, once there is room.
fn flush<R: Wait>(rt: &R, updater: &mut Updater<HeapTheta>) {
    let backoff = Backoff::new();
    'again: for _ in rt.forever() {
        if updater.flush() != Flush::Busy {
            return;
        }
        backoff.snooze();
    }
    unreachable!()
}

// Updates with `count` items, from a place on.
fn update_each<R: Wait>(
    rt: &R,
    updater: &mut Updater<HeapTheta>,
    first: u64,
    count: u64,
    distinct: u64,
)
    requires room { length (kept_of updater.old) + count ≤ most_kept }
{
    'update: for number in 0..count {
        let item = mixed_at(first.wrapping_add(number), distinct);
        if !offer(updater, item) {
            insist(rt, updater, item);
        }
    }
}

// An updater's part of the load.
fn update_part<R: Wait>(rt: &R, updater: &mut Updater<HeapTheta>, load: Load) {
    let first = u64::from(updater.number()).wrapping_mul(load.each);
    if load.each <= MOST_KEPT - updater.taken() {
        update_each(rt, updater, first, load.each, load.distinct);
        flush(rt, updater);
    }
}

// Propagates until the updaters have done, and once more for what they handed over last.
fn propagate_until<R: Wait>(
    rt: &R,
    heart: Heart<HeapTheta>,
    done: &AtomicBool,
) -> Heart<HeapTheta> {
    let mut heart = heart;
    let backoff = Backoff::new();
    'sweep: for _ in rt.forever() {
        let last = done.load(SeqCst);
        if heart.sweep(rt) == Sweep::Swept(0) {
            backoff.snooze();
        } else {
            backoff.reset();
        }
        if last {
            return heart;
        }
    }
    unreachable!()
}

/// Puts the load on a hub, and returns what is published once all of it was handed over.
#[tactic(auto, unfolding(sk_model::specs::Entries::items_of_entries))]
pub fn updates<R: Threads + Wait + Sync>(
    rt: &R,
    alloc: Global,
    load: Load,
) -> Result<Reply, OutOfMemory> {
    let Ok(shape) = Shape::new(K, BUFFER, load.threads, 0, false) else {
        return Err(OutOfMemory);
    };
    let Opened {
        heart,
        mut updaters,
        token: _,
    } = open(alloc, &shape, HeapTheta::new(alloc, K)?)?;
    let done = AtomicBool::new(false);
    let ((), mut heart) = thread::join(
        rt,
        || {
            thread::for_each_mut(
                rt,
                updaters.as_mut_slice(),
                shape.n() as usize,
                &|_, updater| update_part(rt, updater, load),
            );
            done.store(true, SeqCst);
        },
        || propagate_until(rt, heart, &done),
    );
    Ok(unpack(heart.ask(), K))
}

// Ranks that are read while updaters run.
ghost use Rattle.std.specs.Prelude.{◌≤◌};

use sk_compose::OutOfMemory;
use sk_hub::{Update, Updater, open};
use sk_model::limits::ITEM_END;
use sk_snap::{Below, QuantReader, QuantSetup, VersionedQuant};
use sk_theta::Shape;
use std::alloc::Global;
use std::sync::Wait;
use std::sync::atomic::AtomicBool;
use std::sync::atomic::Ordering::SeqCst;
use std::thread;
use std::thread::Threads;

// As many items in a level as `quantile` has by default, and as many in a buffer.
const K: u32 = 128;

const BUFFER: u32 = 64;

const UPDATERS: u32 = 4;

// Offers an item, and helps if both buffers are full. It returns whether the item was taken.
fn offer<W: Wait + Drop, R: Wait>(
    rt: &R,
    updater: &mut Updater<VersionedQuant<W>>,
    item: u64,
) -> bool {
    if updater.taken() == 1 << 40 || !(1..ITEM_END).contains(&item) {
        return false;
    }
    if updater.update(item) != Update::Busy {
        return true;
    }
    updater.help(rt);
    false
}

// Offers items until the reader has done.
fn keep_until<W: Wait + Drop, R: Wait>(
    rt: &R,
    updater: &mut Updater<VersionedQuant<W>>,
    done: &AtomicBool,
) {
    let mut item = u64::from(updater.number()) + 1;
    'item: for _ in rt.forever() {
        if done.load(SeqCst) {
            return;
        }
        if offer(rt, updater, item) {
            item = (item.wrapping_mul(0x9E37_79B9_7F4A_7C15).wrapping_add(1) % ITEM_END).max(1);
        }
    }
    unreachable!()
}

// Reads `count` ranks.
fn read_all<R: Wait>(rt: &R, reader: QuantReader, count: u64, done: &AtomicBool) {
    let mut reader = reader;
    'read: for _ in 0..count {
        let _ = reader.read(rt, Below { x: ITEM_END / 2 });
    }
    done.store(true, SeqCst);
}

/// Reads `count` ranks in one thread while four updaters take items in others, and returns how many they took.
pub fn reads<R: Threads + Wait + Sync>(
    rt: &R,
    alloc: Global,
    count: u64,
) -> Result<u64, OutOfMemory> {
    let (sketch, reader) = VersionedQuant::new(alloc, rt, QuantSetup { k: K, key: 0 })?;
    let Ok(shape) = Shape::new(K, BUFFER, UPDATERS, 0, false) else {
        return Err(OutOfMemory);
    };
    let mut updaters = open(alloc, &shape, sketch)?.updaters;
    let done = AtomicBool::new(false);
    let ((), ()) = thread::join(
        rt,
        || {
            thread::for_each_mut(
                rt,
                updaters.as_mut_slice(),
                UPDATERS as usize,
                &|_, updater| keep_until(rt, updater, &done),
            )
        },
        || read_all(rt, reader, count, &done),
    );
    let mut taken: u64 = 0;
    'updater: for updater in &updaters {
        taken = taken.saturating_add(updater.taken());
    }
    Ok(taken)
}

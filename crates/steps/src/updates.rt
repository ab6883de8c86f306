// Updates of a sketch alone, and of a hub with one updater that helps itself.
ghost use Rattle.std.specs.Prelude.{◌≡◌, ◌+◌, ◌<◌, ◌≤◌, length};
ghost use Rattle.sk_hub.specs.Updaters.{kept_of};
ghost use Rattle.sk_model.specs.Limits.{most_kept};
ghost use Rattle.sk_model.specs.Width.{IsItem};

use sk_compose::{Composable, OutOfMemory};
use sk_heap::HeapTheta;
use sk_hub::{Help, Update, Updater, open};
use sk_model::limits::MOST_KEPT;
use sk_theta::{ITEM_END, Shape};
use std::alloc::Global;
use std::sync::Wait;

// As many hashes as `count` keeps by default, and as many items in a buffer.
pub const K: u32 = 4_096;

pub const BUFFER: u32 = 64;

/// By which items are mixed: 2^64 over the golden ratio.
pub const FACTOR: u64 = 0x9E37_79B9_7F4A_7C15;

/// The item at a place, of `distinct` ones, or of as many as there are places if that is 0.
pub fn item_at(place: u64, distinct: u64) -> u64
    ensures { IsItem result }
{
    let number = if distinct == 0 {
        place
    } else {
        place % distinct
    };
    (number.wrapping_mul(FACTOR) % ITEM_END).max(1)
}

/// Updates a sketch `count` times.
pub fn sketch(alloc: Global, distinct: u64, count: u64) -> Result<(), OutOfMemory> {
    let mut sketch = HeapTheta::new(alloc, K)?;
    'update: for place in 0..count {
        sketch.update(item_at(place, distinct));
    }
    Ok(())
}

/// Updates a hub `count` times.
#[tactic(auto, unfolding(sk_model::specs::Entries::items_of_entries))]
pub fn hub<R: Wait>(rt: &R, alloc: Global, distinct: u64, count: u64) -> Result<(), OutOfMemory> {
    let Ok(shape) = Shape::new(K, BUFFER, 1, 0, true) else {
        return Err(OutOfMemory);
    };
    let mut opened = open(alloc, &shape, HeapTheta::new(alloc, K)?)?;
    let mut updater = opened.updaters.remove(0);
    if count <= MOST_KEPT - updater.taken() {
        update_each(rt, &mut updater, distinct, count);
    }
    Ok(())
}

/// Updates `count` times by an updater.
pub fn update_each<C: Composable, R: Wait>(
    rt: &R,
    updater: &mut Updater<C>,
    distinct: u64,
    count: u64,
)
    requires room { length (kept_of updater.old) + count ≤ most_kept }
{
    'update: for place in 0..count {
        update(rt, updater, item_at(place, distinct));
    }
}

// Updates with an item, and helps if there is no room or each item is handed over.
#[inline(always)]
fn update<C: Composable, R: Wait>(rt: &R, updater: &mut Updater<C>, item: u64)
    requires item { IsItem item }
    requires room { length (kept_of updater.old) < most_kept }
    ensures { length (kept_of updater.new) ≤ length (kept_of updater.old) + 1 }
{
    match updater.update(item) {
        Update::Filtered | Update::Kept => {}
        Update::Handed => {
            if updater.is_eager() {
                help(rt, updater);
            }
        }
        Update::Busy => {
            if help(rt, updater) {
                let _ = updater.update(item);
            }
        }
    }
}

// Propagates, and returns whether no other seat did.
fn help<C: Composable, R: Wait>(rt: &R, updater: &mut Updater<C>) -> bool
    ensures none { kept_of updater.new ≡ kept_of updater.old }
{
    match updater.help(rt) {
        Help::Served(_) => true,
        Help::Elsewhere(_) | Help::OutOfMemory => false,
    }
}

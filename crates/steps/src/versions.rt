// Updates of a hub over the versions of a sketch with one updater that helps itself.
ghost use Rattle.std.specs.Prelude.{◌≤◌};

use crate::updates::{K, update_each};
use sk_compose::OutOfMemory;
use sk_hub::open;
use sk_model::limits::MOST_KEPT;
use sk_snap::{Sequential, Versioned};
use sk_theta::Shape;
use std::alloc::Global;
use std::sync::Wait;

// As many items in a buffer as a command has whose sketch nobody reads before the end.
const BUFFER: u32 = 1_024;

/// Updates a hub `count` times. The sketch keeps a runtime of its own.
pub fn hub<S: Sequential, W: Wait + Drop, R: Wait>(
    rt: &R,
    waits: W,
    alloc: Global,
    setup: S::Setup,
    distinct: u64,
    count: u64,
) -> Result<(), OutOfMemory>
    requires fits { S.fits setup }
{
    let Ok(shape) = Shape::new(K, BUFFER, 1, 0, false) else {
        return Err(OutOfMemory);
    };
    let (sketch, _reader) = Versioned::<S, W>::new(alloc, waits, setup)?;
    let mut opened = open(alloc, &shape, sketch)?;
    let mut updater = opened.updaters.remove(0);
    if count <= MOST_KEPT - updater.taken() {
        update_each(rt, &mut updater, distinct, count);
    }
    Ok(())
}

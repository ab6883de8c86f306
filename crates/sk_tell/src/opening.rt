//! A hub over a sketch by versions, as it is opened.
ghost use Rattle.std.specs.Prelude.{◌≡◌, [], IfOk};
ghost use Rattle.sk_model.specs.Limits.{most_size, most_updaters, IsFrom};
ghost use Rattle.sk_feed.specs.Hubs.{hub_of};
ghost use Rattle.sk_snap.specs.History.{entries_in, name_of};
ghost use Rattle.sk_tell.specs.Feeding.{IsOpened, IsNewReader};
ghost use Rattle.sk_tell.specs.Manners.{buffer_size_by};

use sk_hub::{Opened, open};
use sk_model::OutOfMemory;
use sk_model::limits::LEAST_K;
use sk_snap::{Sequential, VersionReader, Versioned};
use sk_theta::Shape;
use std::alloc::Global;
use std::sync::Wait;

// The least size of a buffer if nobody reads before the end: the larger a batch, the less a merge takes for each item.
// A buffer takes 8 bytes an item.
const UNREAD_SIZE: u32 = 1_024;

/// How many items a buffer holds, if this many are asked for, with or without interim lines.
pub fn buffer_size(window: Option<u32>, size: u32) -> u32
    requires size { IsFrom 1 most_size size }
    ensures value { result ≡ buffer_size_by window size }
    ensures within { IsFrom 1 most_size result }
{
    match window {
        Some(_) => size,
        None => size.max(UNREAD_SIZE),
    }
}

// A hub over a sketch of no item, with this many updaters and buffers of this size, and the reader of the sketch.
pub(crate) fn open_all<S: Sequential, W: Wait + Drop>(
    alloc: Global,
    waits: W,
    setup: S::Setup,
    updaters: u32,
    size: u32,
) -> Result<(Opened<Versioned<S, W>>, VersionReader<S>), OutOfMemory>
    requires setup { S.fits setup }
    requires updaters { IsFrom 1 most_updaters updaters }
    requires size { IsFrom 1 most_size size }
    ensures opened { IfOk result (λ made. IsOpened updaters size (hub_of made.0)) }
    ensures reader { IfOk result (λ made. IsNewReader (S.numbers (S.opened setup)) made.0.heart.view.name made.1) }
{
    let (sketch, reader) = Versioned::new(alloc, waits, setup)?;
    let opened = open_hub(alloc, updaters, size, sketch)?;
    Ok((opened, reader))
}

// A hub over a sketch of no item, with this many updaters and buffers of this size.
fn open_hub<S: Sequential, W: Wait + Drop>(
    alloc: Global,
    updaters: u32,
    size: u32,
    sketch: Versioned<S, W>,
) -> Result<Opened<Versioned<S, W>>, OutOfMemory>
    requires updaters { IsFrom 1 most_updaters updaters }
    requires size { IsFrom 1 most_size size }
    requires fresh { entries_in sketch.known ≡ [] }
    ensures opened { IfOk result (λ opened. IsOpened updaters size (hub_of opened)) }
    ensures name { IfOk result (λ opened. opened.heart.view.name ≡ name_of sketch.known.book) }
{
    // Its k is of other sketches.
    let Ok(shape) = Shape::new(LEAST_K, size, updaters, 0, false) else {
        unreachable!()
    };
    open(alloc, &shape, sketch)
}

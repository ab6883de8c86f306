//! The memory that a reply and the end of an interval take.
ghost use Rattle.std.specs.Prelude.{IfOk};
ghost use Rattle.sk_model.specs.Limits.{least_k, most_k, IsFrom};
ghost use Rattle.sk_window.specs.Intervals.{IsEmptySketch};

use sk_heap::HeapTheta;
use sk_model::OutOfMemory;
use std::alloc::Global;

// A sketch for the reply, and one for the interval once it is closed.
#[derive(Drop)]
pub struct Room {
    pub pane: HeapTheta,
    pub closed: HeapTheta,
}

// New memory.
pub(crate) fn new_room(alloc: Global, k: u32) -> Result<Room, OutOfMemory>
    requires k { IsFrom least_k most_k k }
    ensures pane { IfOk result (λ room. IsEmptySketch k room.pane) }
    ensures closed { IfOk result (λ room. IsEmptySketch k room.closed) }
{
    let pane = HeapTheta::new(alloc, k)?;
    let closed = HeapTheta::new(alloc, k)?;
    Ok(Room { pane, closed })
}

// The same memory, with empty sketches.
pub(crate) fn cleared(room: Room) -> Room
    ensures pane { IsEmptySketch room.pane.k result.pane }
    ensures closed { IsEmptySketch room.closed.k result.closed }
{
    let Room {
        mut pane,
        mut closed,
    } = room;
    pane.clear();
    closed.clear();
    Room { pane, closed }
}

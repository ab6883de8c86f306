//! What the calls of a hub answer.
use crate::updater::Updater;
use sk_compose::Composable;

/// What became of an item.
#[derive(Clone, Copy, Debug, PartialEq, Eq)]
pub enum Update {
    /// It changes no later reply.
    Filtered,
    /// It lies in the fill buffer.
    Kept,
    /// A buffer was handed over.
    Handed,
    /// The fill buffer is full, and the last one is not published. The item is not kept.
    Busy,
}

#[derive(Clone, Copy, Debug, PartialEq, Eq)]
pub enum Flush {
    /// The fill buffer is empty.
    Empty,
    Handed,
    /// The buffer that was handed over last is not published.
    Busy,
}

#[derive(Clone, Copy, Debug, PartialEq, Eq)]
pub enum Settle {
    /// All that was handed over is published.
    Settled,
    Busy,
}

#[derive(Clone, Copy, Debug, PartialEq, Eq)]
pub enum Help {
    /// Each updater was served once, with this many items in all.
    Served(u32),
    /// The seat with this number propagates.
    Elsewhere(u32),
    OutOfMemory,
}

#[derive(Clone, Copy, Debug, PartialEq, Eq)]
pub enum Serve {
    /// This many items were published.
    Served(u32),
    /// Nothing waited.
    Nothing,
    /// The seat with this number propagates.
    Elsewhere(u32),
    OutOfMemory,
}

#[derive(Clone, Copy, Debug, PartialEq, Eq)]
pub enum Sweep {
    /// Each updater was served once, with this many items in all.
    Swept(u32),
    /// The seat with this number propagates.
    Elsewhere(u32),
    OutOfMemory,
}

#[derive(Drop)]
pub enum Drain<C: Composable> {
    Drained,
    /// The updater comes back with all that it had kept.
    OutOfMemory(Updater<C>),
}

#[derive(Drop)]
pub enum Admit<C: Composable> {
    Admitted(Updater<C>),
    /// All updaters of the hub were admitted.
    Full,
    OutOfMemory,
}

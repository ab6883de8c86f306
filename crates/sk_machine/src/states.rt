//! Where an updater and the propagator are, in the whole machine.

/// What an updater has done since its last hand.
#[derive(Clone, Copy, Debug, PartialEq, Eq)]
pub enum Mark {
    Neither,
    /// It has looked, and found a number other than 0.
    Ready,
    /// Its items lie in its slot.
    Swapped,
}

/// Where the propagator is, with the number of the updater that it is at.
#[derive(Clone, Copy, Debug, PartialEq, Eq)]
pub enum Progress {
    Idle,
    /// A batch waits in the slot.
    Found(u64),
    /// The batch is in hand, and the slot is out.
    Holding(u64),
    /// The batch is published, and the slot is out.
    Published(u64),
    /// An empty list lies in the slot.
    Put(u64),
}

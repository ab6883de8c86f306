//! What the seats of a shared table know. No value of these types is made. A clause reads an array as a
//! list, of any length.

/// What an updater's seat knows of itself.
pub struct Mine {
    /// The items that it handed over, in order.
    pub handed: [u64; 0],
    /// The published list that its hint is of.
    pub base: [(u64, u64); 0],
    /// It has looked, and found a number other than 0, since its last hand.
    pub ready: bool,
    /// It gave its slot back at a look, and has handed nothing over since.
    pub rested: bool,
    /// The parcel that it gave back so had been picked before.
    pub picked: bool,
}

/// Where the propagator is. A table does not show whether a batch that was found has left its slot, and
/// whether an empty parcel was laid there after a publish.
pub enum Stage {
    Idle,
    /// At this updater, with this batch of it.
    Busy(u64, [u64; 0]),
    /// At this updater, whose batch is published.
    Published(u64),
}

/// A step on a word, with the updater's number where the word is an updater's, and what was loaded, found or
/// stored, where that is not 0 in any case.
pub enum Move {
    Look(u64, u64),
    Hand(u64),
    Find(u64, u64),
    /// With the number of entries that it appended.
    Publish(u64, u64),
    GiveBack(u64, u64),
    Ask(u64),
    /// The step's load is not seen.
    Split,
    /// The step's load is not seen.
    Join,
    Turn(u64),
    Yield,
}

/// Whose seat it is.
pub enum Post {
    /// A token's, a note's or the heart's.
    Guest,
    /// Of one that has yet to give out the updaters from this number on.
    Root(u64),
    /// Of this updater, which knows this of itself.
    Updater(u64, Mine),
}

/// Whether the seat propagates: where it is, and whether the slot of the updater that it is at lies at home,
/// without a parcel.
pub enum Duty {
    Free,
    Leads(Stage, bool),
}

/// What a seat knows.
pub struct View {
    /// False for a seat that was joined into another.
    pub live: bool,
    /// The longest published list that it has seen.
    pub seen: [(u64, u64); 0],
    /// What it had seen, and what the other had, where it took another seat in.
    pub heard: [[(u64, u64); 0]; 0],
    /// For each updater what the seat knows that it handed over.
    pub known: [[u64; 0]; 0],
    /// Its own steps, in order.
    pub steps: [Move; 0],
    pub post: Post,
    pub duty: Duty,
    /// For each updater the published list as of this seat's last give_back there.
    pub given: [[(u64, u64); 0]; 0],
    /// The names that the seats had that it took in.
    pub names: [[u64; 0]; 0],
    /// The updaters whose seats were joined into it, in order.
    pub drained: [u64; 0],
    /// Those of them that had picked the told value out of the parcel that they gave back.
    pub picked: [u64; 0],
    /// For each updater the size of its buffers, or 0 where the seat does not know it.
    pub sizes: [u64; 0],
    /// The fixed numbers of the sketch.
    pub numbers: [u64; 0],
    /// The name of the sketch.
    pub name: [u64; 0],
}

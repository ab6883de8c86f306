//! What a schedule lets the machine do, and what it returns.

/// An event. Updaters, tokens and seats go by their numbers, from 0; the heart's seat has the number of
/// the updaters.
#[derive(Clone, Copy, Debug, PartialEq, Eq)]
pub enum Event {
    /// The updater is offered the item. An offer of 0 is never enabled.
    Offer(u64, u64),
    Look(u64),
    Swap(u64),
    Hand(u64),
    Find(u64),
    Take(u64),
    Publish(u64),
    Put(u64),
    GiveBack(u64),
    Ask(u64),
    Split(u64),
    /// The updater gives a note, which is a token.
    Note(u64),
    /// The second token is joined into the first.
    Join(u64, u64),
    /// The seat tries to take the turn.
    Turn(u64),
    YieldTurn(u64),
    /// The updater is admitted, with buffers of this many items.
    Admit(u64, u64),
}

/// What an event that is enabled returns.
#[derive(Clone, Copy, Debug, PartialEq, Eq)]
pub enum Answer {
    Kept,
    Filtered,
    Hint(u64),
    Busy,
    Swapped,
    /// With the items handed over.
    Handed(u64),
    Waiting,
    Nothing,
    /// With the items taken.
    Took(u64),
    /// With the entries published by now.
    Published(u64),
    Put,
    /// With the hint given back.
    Returned(u64),
    /// As a numerator and a denominator, not reduced.
    Estimate(u128, u64),
    /// The number of the new token.
    Token(u64),
    Joined,
    Turned,
    /// The seat that has the turn.
    Elsewhere(u64),
    Yielded,
    Admitted,
}

/// The event's condition does not hold.
#[derive(Clone, Copy, Debug, PartialEq, Eq)]
pub struct NotEnabled;

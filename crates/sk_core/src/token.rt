//! A token.

use sk_model::limits;

/// The most updaters that there may be, as a length.
pub const MOST_UPDATERS: usize = limits::MOST_UPDATERS as usize;

/// What a token has seen, and what it knows of each updater, as lengths.
#[derive(Clone, Copy)]
pub struct Token {
    /// False once it was joined into another.
    pub live: bool,
    /// How many of the published entries it has seen.
    pub seen: usize,
    /// How many of each updater's kept items it knows to be handed over.
    pub known: [usize; MOST_UPDATERS],
}

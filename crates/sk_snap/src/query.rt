//! What is asked of a version.
ghost use Rattle.std.specs.Prelude.{◌≡◌, ℕ, List, length};

use crate::sequential::Sequential;

/// What is asked of a version, once. The writer may wait while it runs, so it must not merge, help or drain.
pub trait Query<S: Sequential>: Drop {
    /// What it returns.
    type Answer;

    /// Whether it may be asked of sketches with these numbers.
    ghost fits: { Self → List ℕ → Type 0 };

    /// The relation between a query, a sketch's numbers and items, and what it returns of them.
    ghost gives: { Self → List ℕ → List ℕ → Self.Answer → Type 0 };

    /// Asks a sketch of this many items.
    fn ask(self, sketch: &S, count: u64) -> Self::Answer
        requires fits { fits self (S.numbers sketch.now) }
        requires sketch { (items : List ℕ) × S.is_of sketch.now items × (count ≡ length items) }
        ensures gives { (items : List ℕ) → S.is_of sketch.now items → count ≡ length items
            → gives self (S.numbers sketch.now) items result };
}

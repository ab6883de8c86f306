//! What a sketch owes to be run concurrently.
ghost use Rattle.std.specs.Prelude.{◌≡◌, ◌↔◌, ◌+◌, ◌<◌, ◌≤◌, ◌^◌, ℕ, Bool, true, false, List, ◌∷◌, ◌++◌, length, IsTrue, IfOk, IfErr};
ghost use Rattle.sk_model.specs.Entries.{Entry, tagged};
ghost use Rattle.sk_model.specs.Width.{IsItem};
ghost use Rattle.sk_model.specs.Missing.{longer};

use crate::buffer::Buffer;
use sk_model::OutOfMemory;
use std::sync::Wait;

/// A sketch of a list of entries, which it does not store: what holds of it holds for every list that
/// it is of. After the composable sketches of Rinberg and others (PPoPP 2020).
pub trait Composable: Drop {
    /// What a merge makes known.
    type Told: Drop;

    /// Whether a merge may find no memory.
    const TAKES_MEMORY: bool;

    ghost TAKES_MEMORY: { Bool };

    /// Whether the merge is most of the work, so that updaters are fed in one thread. No clause sees it.
    const MERGES_ALONE: bool = false;

    /// The relation between a sketch and a list that it is of.
    ghost is_of: { Self → List Entry → Type 0 };

    /// The numbers that are fixed when a sketch is made.
    ghost numbers: { Self → List ℕ };

    /// By this name a told value and a reader are known to be of a sketch.
    ghost name: { Self → List ℕ };

    /// The hint of a list, for sketches with these numbers.
    ghost hint_of: { List ℕ → List Entry → ℕ };

    /// The word of a list, for sketches with these numbers.
    ghost packed_of: { List ℕ → List Entry → ℕ };

    /// Whether an item is kept, by a hint.
    ghost keeps_of: { ℕ → ℕ → Bool };

    /// Whether a hint is of a short stream.
    ghost early_of: { ℕ → Bool };

    /// That told values tell a list.
    ghost tells: { Type 0 };

    /// The name of the sketch that a told value is of.
    ghost told_name: { Self.Told → List ℕ };

    /// The relation between a told value and a list that it tells.
    ghost told_of: { Self.Told → List Entry → Type 0 };

    /// Puts the entries of an updater's batch to the end of the list, or changes nothing.
    fn merge<R: Wait>(&mut self, rt: &R, from: u32, batch: &Buffer) -> Result<(), OutOfMemory>
        requires few { (list : List Entry) × is_of self.old list
            × (length list + length batch.now.items ≤ 2 ^ 46) }
        ensures lists { IfOk result (λ _. (list : List Entry) → is_of self.old list
            → is_of self.new (list ++ tagged from batch.now.items)) }
        ensures refused { IfErr result (λ _. (list : List Entry) → is_of self.old list
            ↔ is_of self.new list) }
        ensures cause { IfErr result (λ _. IsTrue TAKES_MEMORY) }
        ensures numbers { numbers self.new ≡ numbers self.old }
        ensures name { name self.new ≡ name self.old };

    /// By which items are filtered. It is never 0.
    fn hint(&self) -> u64
        ensures lower { 1 ≤ result }
        ensures value { (list : List Entry) → is_of self.now list
            → result ≡ hint_of (numbers self.now) list };

    /// Whether an item has to be merged, by a hint of a list that the sketch was of.
    fn keeps(hint: u64, item: u64) -> bool
        ensures value { result ≡ keeps_of hint item };

    /// Whether a hint is of a short stream.
    fn early(hint: u64) -> bool
        ensures value { result ≡ early_of hint };

    /// What is published of the sketch, in one word.
    fn packed(&self) -> u64
        ensures value { (list : List Entry) → is_of self.now list
            → result ≡ packed_of (numbers self.now) list };

    /// What the last merge made known.
    fn told(&mut self) -> Self::Told
        ensures lists { (list : List Entry) → is_of self.old list ↔ is_of self.new list }
        ensures numbers { numbers self.new ≡ numbers self.old }
        ensures name { name self.new ≡ name self.old }
        ensures told_name { tells → told_name result ≡ name self.old }
        ensures told { tells → (list : List Entry) → is_of self.old list
            → told_of result list };

    // An item that the hint of a list does not keep may be left out of any longer list.
    ghost idle_replies: { (numbers : List ℕ) (list more rest : List Entry) (i item : ℕ)
        → IsItem item
        → keeps_of (hint_of numbers list) item ≡ false
        → (hint_of numbers ((list ++ more) ++ (i, item) ∷ rest)
        ≡ hint_of numbers ((list ++ more) ++ rest))
        × (packed_of numbers ((list ++ more) ++ (i, item) ∷ rest)
        ≡ packed_of numbers ((list ++ more) ++ rest)) };
}

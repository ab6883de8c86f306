//! What a sketch on one thread owes to be read by versions.
ghost use Rattle.std.specs.Prelude.{◌≡◌, ◌+◌, ◌≤◌, ◌^◌, ℕ, Bool, false, List, [], ◌∷◌, ◌++◌, length, IfOk};
ghost use Rattle.sk_model.specs.Width.{IsItem, AreItems};

use sk_model::OutOfMemory;
use std::alloc::Global;

/// A sketch on one thread. Two that are opened alike and take the same items are equal, so that one can be read while
/// the other is written.
pub trait Sequential: Drop {
    /// What one is opened with.
    type Setup: Copy;

    /// Whether one can be opened with it.
    ghost fits: { Self.Setup → Type 0 };

    /// The sketch as it is opened.
    ghost opened: { Self.Setup → Self };

    /// The numbers that are fixed when a sketch is opened.
    ghost numbers: { Self → List ℕ };

    /// The relation between a sketch and items that it is of, in order.
    ghost is_of: { Self → List ℕ → Type 0 };

    /// The sketch after it took items.
    ghost after: { Self → List ℕ → Self };

    /// The hint of items, for sketches with these numbers.
    ghost hint_of: { List ℕ → List ℕ → ℕ };

    /// The word of items, for sketches with these numbers.
    ghost packed_of: { List ℕ → List ℕ → ℕ };

    /// Whether an item is kept, by a hint.
    ghost keeps_of: { ℕ → ℕ → Bool };

    /// Whether a hint is of a short stream.
    ghost early_of: { ℕ → Bool };

    /// What is worked out of items once, for all sketches that take them.
    type Prepared: Drop;

    /// Whether it was worked out of these items.
    ghost is_prepared: { Self.Prepared → List ℕ → Type 0 };

    /// A sketch of no item, which has all the memory that it will need.
    fn open(alloc: Global, setup: Self::Setup) -> Result<Self, OutOfMemory>
        requires fits { fits setup }
        ensures value { IfOk result (λ s. s ≡ opened setup) };

    /// Works out of items what is the same for sketches that were opened alike.
    fn prepare(&self, alloc: Global, items: &[u64]) -> Result<Self::Prepared, OutOfMemory>
        ensures prepared { IfOk result (λ p. is_prepared p items.now) };

    /// Takes items, of which this was worked out, by this sketch or another.
    fn take(&mut self, items: &[u64], prepared: &Self::Prepared)
        requires items { AreItems items.now }
        requires prepared { is_prepared prepared.now items.now }
        ensures after { self.new ≡ after self.old items.now };

    /// By which items are filtered. It is never 0.
    fn hint(&self) -> u64
        ensures lower { 1 ≤ result }
        ensures value { (items : List ℕ) → is_of self.now items
            → result ≡ hint_of (numbers self.now) items };

    /// What is published of the sketch of this many items, in one word.
    fn packed(&self, count: u64) -> u64
        ensures value { (items : List ℕ) → is_of self.now items → count ≡ length items
            → result ≡ packed_of (numbers self.now) items };

    /// Whether an item has to be taken, by a hint of items that the sketch was of.
    fn keeps(hint: u64, item: u64) -> bool
        ensures value { result ≡ keeps_of hint item };

    /// Whether a hint is of a short stream.
    fn early(hint: u64) -> bool
        ensures value { result ≡ early_of hint };

    // One that was just opened is of no item.
    ghost begins: { (setup : Self.Setup) → fits setup → is_of (opened setup) [] };

    // Items change no number.
    ghost same_numbers: { (s : Self) (items : List ℕ) → numbers (after s items) ≡ numbers s };

    // Items are put to the end of the list.
    ghost goes_on: { (s : Self) (list items : List ℕ) → AreItems items
        → length list + length items ≤ 2 ^ 46 → is_of s list
        → is_of (after s items) (list ++ items) };

    // An item that the hint of a list does not keep may be left out of any longer list.
    ghost idle_replies: { (numbers list more rest : List ℕ) (item : ℕ) → IsItem item
        → keeps_of (hint_of numbers list) item ≡ false
        → (hint_of numbers ((list ++ more) ++ item ∷ rest)
        ≡ hint_of numbers ((list ++ more) ++ rest))
        × (packed_of numbers ((list ++ more) ++ item ∷ rest)
        ≡ packed_of numbers ((list ++ more) ++ rest)) };
}

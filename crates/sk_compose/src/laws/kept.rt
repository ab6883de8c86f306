//! What items gave of which some were kept, by a hint.
ghost use Rattle.std.specs.Prelude.{ℕ, Bool, List, [], ◌∷◌, ◌≡◌, ◌<◌, ◌≤◌, ◌++◌, length, All, Contains, flat_map};
ghost use Rattle.std.specs.List.{range_with_len};
ghost use Rattle.sk_model.specs.Entries.{Entry, entries_by, tagged};
ghost use Rattle.sk_model.specs.Missing.{Begins};
ghost use Rattle.sk_model.specs.Sketch.{packed_of};
ghost use Rattle.sk_model.specs.Width.{AreItems};
ghost use Rattle.sk_compose.specs.Kept.{IsFiltered, AreKept};
ghost use Rattle.sk_compose.specs.Numbers.{k_of};

use crate::composable::Composable;
use crate::theta_kind::ThetaWord;
use std::marker::PhantomData;

/// One item more at the end, which is kept.
pub fn keeps_one_more()
    ensures { (keeps : ℕ → ℕ → Bool) (hint : List Entry → ℕ) (base : List Entry) (items kept : List ℕ) (item : ℕ)
        → AreKept keeps hint base items kept → AreKept keeps hint base (items ++ item ∷ []) (kept ++ item ∷ []) }
{}

/// One item more at the end, which is filtered.
pub fn drops_one_more()
    ensures { (keeps : ℕ → ℕ → Bool) (hint : List Entry → ℕ) (base : List Entry) (items kept : List ℕ) (item : ℕ)
        → IsFiltered keeps hint base item → AreKept keeps hint base items kept → AreKept keeps hint base (items ++ item ∷ []) kept }
{}

/// What was kept of items stays, whatever longer list begins with the base.
pub fn kept_stays()
    ensures { (keeps : ℕ → ℕ → Bool) (hint : List Entry → ℕ) (base longer : List Entry) (items kept : List ℕ)
        → Begins base longer → AreKept keeps hint base items kept → AreKept keeps hint longer items kept }
{}

/// No more are kept than there were.
pub fn kept_are_few()
    ensures { (keeps : ℕ → ℕ → Bool) (hint : List Entry → ℕ) (base : List Entry) (items kept : List ℕ)
        → AreKept keeps hint base items kept → length kept ≤ length items }
{}

/// After the base, items give the replies of those that were kept, whatever comes before and after them.
pub fn kept_items_give_the_replies<C: Composable>(_sketch: PhantomData<C>)
    ensures word { (numbers : List ℕ) (base list rest : List Entry) (i : ℕ) (items kept : List ℕ)
        → Begins base list → AreItems items → AreKept C.keeps_of (C.hint_of numbers) base items kept
        → C.packed_of numbers (list ++ tagged i items ++ rest) ≡ C.packed_of numbers (list ++ tagged i kept ++ rest) }
    ensures hint { (numbers : List ℕ) (base list rest : List Entry) (i : ℕ) (items kept : List ℕ)
        → Begins base list → AreItems items → AreKept C.keeps_of (C.hint_of numbers) base items kept
        → C.hint_of numbers (list ++ tagged i items ++ rest) ≡ C.hint_of numbers (list ++ tagged i kept ++ rest) }
{}

/// If a list has of each of n updaters exactly the items that were kept, its word is that of all their items.
pub fn the_word_is_of_all_items<C: ThetaWord>(_sketch: PhantomData<C>)
    ensures { (numbers : List ℕ) (list : List Entry) (n : ℕ) (items : ℕ → List ℕ)
        → All (λ entry. entry.0 < n) list → ((i : ℕ) → i < n → AreItems (items i))
        → ((i : ℕ) → i < n → AreKept C.keeps_of (C.hint_of numbers) list (items i) (entries_by i list))
        → C.packed_of numbers list ≡ packed_of (k_of numbers) (flat_map items (range_with_len 0 n)) }
{}

/// Lists with the same members have one word, in whatever order.
pub fn order_changes_no_word()
    ensures { (k : ℕ) (xs ys : List ℕ) → ((x : ℕ) → Contains xs x → Contains ys x)
        → ((x : ℕ) → Contains ys x → Contains xs x) → packed_of k xs ≡ packed_of k ys }
{}

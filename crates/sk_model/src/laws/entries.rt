//! Lists of updates that several updaters made.

ghost use Rattle.std.specs.Prelude.{◌≡◌, ◌≢◌, ℕ, List, [], ◌++◌};
ghost use Rattle.sk_model.specs.Entries.{Entry, entries_by, items_of_entries, tagged};

/// What follows is of its own updater.
pub fn entries_by_append()
    ensures { (i : ℕ) (xs ys : List Entry) → entries_by i (xs ++ ys) ≡ entries_by i xs ++ entries_by i ys }
{}

/// A batch belongs to its updater, whole.
pub fn entries_by_tagged()
    ensures { (i : ℕ) (batch : List ℕ) → entries_by i (tagged i batch) ≡ batch }
{}

/// A batch has nothing of another updater.
pub fn entries_by_others()
    ensures { (i j : ℕ) (batch : List ℕ) → j ≢ i → entries_by j (tagged i batch) ≡ [] }
{}

/// The items of a list are those of its parts, in order.
pub fn items_append()
    ensures { (xs ys : List Entry) → items_of_entries (xs ++ ys) ≡ items_of_entries xs ++ items_of_entries ys }
{}

/// The items of a batch are the batch.
pub fn items_tagged()
    ensures { (i : ℕ) (batch : List ℕ) → items_of_entries (tagged i batch) ≡ batch }
{}

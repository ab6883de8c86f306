//! Laws of the definitions. Each function is empty: its contract is the law.

ghost use Rattle.std.specs.Prelude.{◌≡◌, ◌<◌, ◌≤◌, ℕ, List, ◌++◌, length, All, IsPermutation, flat_map};
ghost use Rattle.std.specs.List.{range_with_len};
ghost use Rattle.sk_cms.specs.Estimate.{cell_of, cell_count, least_of, times};
ghost use Rattle.sk_cms.specs.Tallies.{IsTally};
ghost use Rattle.sk_model.specs.Entries.{Entry, items_of_entries, entries_by};

/// The estimate is at most the count of the item's cell in each row and the length of the list, and it is one of these
/// counts if there is a row.
pub fn the_least_is_of_a_row()
    ensures within { (rows width r x : ℕ) (items : List ℕ) → r < rows
        → least_of rows width x items ≤ cell_count width r (cell_of width r x) items }
    ensures most { (rows width x : ℕ) (items : List ℕ) → least_of rows width x items ≤ length items }
    ensures one { (rows width x : ℕ) (items : List ℕ) → 1 ≤ rows
        → (r : ℕ) × (r < rows)
        × (least_of rows width x items ≡ cell_count width r (cell_of width r x) items) }
{}

/// An item never stands in a list more often than the estimate says.
pub fn never_too_low()
    ensures { (rows width x : ℕ) (items : List ℕ) → times x items ≤ least_of rows width x items }
{}

/// The estimate is exact if in one row no other item of the list has the cell of this one. With one row that is so for
/// each item if the cells of distinct items differ.
pub fn exact_without_a_collision()
    ensures { (rows width r x : ℕ) (items : List ℕ) → r < rows
        → All (λ y. cell_of width r y ≡ cell_of width r x → y ≡ x) items
        → least_of rows width x items ≡ times x items }
{}

/// The estimate never falls as a list grows.
pub fn never_falls()
    ensures { (rows width x : ℕ) (items more : List ℕ)
        → least_of rows width x items ≤ least_of rows width x (items ++ more) }
{}

/// The order of the items changes neither how often one stands in the list nor the estimate.
pub fn any_order()
    ensures times { (x : ℕ) (items others : List ℕ) → IsPermutation items others
        → times x items ≡ times x others }
    ensures least { (rows width x : ℕ) (items others : List ℕ) → IsPermutation items others
        → least_of rows width x items ≡ least_of rows width x others }
{}

/// If a list of updates has exactly these items of each updater, a tally of the list is one of all their items.
pub fn a_tally_is_of_all_items()
    ensures { (x rows width n least updaters : ℕ) (list : List Entry) (items : ℕ → List ℕ)
        → All (λ entry. entry.0 < updaters) list → ((i : ℕ) → i < updaters → entries_by i list ≡ items i)
        → IsTally x rows width (items_of_entries list) n least
        → IsTally x rows width (flat_map items (range_with_len 0 updaters)) n least }
{}

//! Laws of the definitions. Each function is empty: its contract is the law.

ghost use Rattle.std.specs.Prelude.{◌≡◌, ◌+◌, ◌*◌, ◌≤◌, ℕ, List, [], ◌∷◌, ◌++◌, length, map, IsPermutation};
ghost use Rattle.std.specs.Int.{abs_diff};
ghost use Rattle.std.specs.List.Sorted.{IsNonDecreasing};
ghost use Rattle.sk_quant.specs.Held.{halved, held_with, held_after, layers_of};
ghost use Rattle.sk_quant.specs.Limits.{most_items};
ghost use Rattle.sk_quant.specs.Order.{in_order};
ghost use Rattle.sk_quant.specs.Quantiles.{IsFilled};
ghost use Rattle.sk_quant.specs.Ranks.{rank_of, weighted_rank, weight_of, error_terms, rank_error};

pub mod worked;

/// Items in order are the same items, and rise. No other list is so.
pub fn in_order_is()
    ensures same { (items : List ℕ) → IsPermutation items (in_order items) }
    ensures rises { (items : List ℕ) → IsNonDecreasing (in_order items) }
    ensures one { (items rising : List ℕ) → IsPermutation items rising → IsNonDecreasing rising
        → in_order items ≡ rising }
{}

/// Of numbers that are one more each, as many are below x + 1 as were below x.
pub fn ranks_rise_by_one()
    ensures { (x : ℕ) (numbers : List ℕ) → rank_of (x + 1) (map (λ n. n + 1) numbers) ≡ rank_of x numbers }
{}

/// Whichever half of rising items a coin takes, twice the rank of x in it is at most one off.
pub fn one_compaction()
    ensures { (x coin : ℕ) (items : List ℕ) → IsNonDecreasing items
        → abs_diff (2 * rank_of x (halved coin items)) (rank_of x items) ≤ 1 }
{}

/// What one item more leaves needs no more than what was held.
pub fn one_more()
    ensures { (coins : ℕ → ℕ) (k x : ℕ) (items : List ℕ)
        → held_after coins k (items ++ x ∷ []) ≡ held_with coins k (held_after coins k items) x }
{}

/// The length of a list says how much of it lies in the base and in each level, and how many coins
/// were taken.
pub fn held_is_filled()
    ensures { (coins : ℕ → ℕ) (k : ℕ) (items : List ℕ) → 1 ≤ k → length items ≤ most_items
        → IsFilled k (length items) (held_after coins k items) }
{}

/// What is held of a list weighs as much as the list has items.
pub fn weights_add_up()
    ensures { (coins : ℕ → ℕ) (k : ℕ) (items : List ℕ) → 1 ≤ k → length items ≤ most_items
        → weight_of (layers_of (held_after coins k items)) ≡ length items }
{}

/// By whichever coins, the rank of x in what is held of a list is off by at most the error.
pub fn ranks_are_near()
    ensures { (coins : ℕ → ℕ) (k x : ℕ) (items : List ℕ) → 1 ≤ k → length items ≤ most_items
        → abs_diff (weighted_rank x (layers_of (held_after coins k items))) (rank_of x items)
        ≤ rank_error (length items) k }
{}

/// The error has all its terms: more add nothing.
pub fn no_more_terms()
    ensures { (n k more : ℕ) → n ≤ more → error_terms n k more ≡ rank_error n k }
{}

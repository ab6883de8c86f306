//! Laws of the k smallest hashes.
ghost use Rattle.std.specs.Prelude.{◌≡◌, ◌+◌, ◌-◌, ◌^◌, ◌<◌, ◌≤◌, ◌⊎◌, ℕ, List, [], ◌∷◌, ◌++◌, length, take, All, Contains};
ghost use Rattle.std.specs.List.Sorted.{IsStrictlyIncreasing};
ghost use Rattle.sk_model.specs.Sketch.{placed, rising, k_smallest, count_of, theta_to, theta_of, IsIdle, packed_of, unpacked};
ghost use Rattle.sk_model.specs.Limits.{most_k};
ghost use Rattle.sk_model.specs.Width.{item_end, IsItem, AreItems};

/// The k smallest rise, and none stands twice.
pub fn k_smallest_rises()
    ensures { (k : ℕ) (hashes : List ℕ) → IsStrictlyIncreasing (k_smallest k hashes) }
{}

/// There are at most k.
pub fn count_within()
    ensures { (k : ℕ) (hashes : List ℕ) → count_of k hashes ≤ k }
{}

/// Each of them is a member of the list.
pub fn k_smallest_has_members()
    ensures { (k : ℕ) (hashes : List ℕ) (x : ℕ) → Contains (k_smallest k hashes) x → Contains hashes x }
{}

/// A member that is not among them is above all of them, and then there are k.
pub fn k_smallest_has_the_least()
    ensures { (k : ℕ) (hashes : List ℕ) (x : ℕ) → Contains hashes x
        → Contains (k_smallest k hashes) x ⊎ ((count_of k hashes ≡ k) × All (λ y. y < x) (k_smallest k hashes)) }
{}

/// No other list has these four properties.
pub fn k_smallest_is()
    ensures { (k : ℕ) (xs hashes : List ℕ) → IsStrictlyIncreasing xs → length xs ≤ k
        → ((x : ℕ) → Contains xs x → Contains hashes x)
        → ((x : ℕ) → Contains hashes x → Contains xs x ⊎ ((length xs ≡ k) × All (λ y. y < x) xs))
        → k_smallest k hashes ≡ xs }
{}

/// Strictly increasing lists with the same members are equal.
pub fn one_increasing()
    ensures { (xs ys : List ℕ) → IsStrictlyIncreasing xs → IsStrictlyIncreasing ys
        → ((x : ℕ) → Contains xs x → Contains ys x) → ((x : ℕ) → Contains ys x → Contains xs x) → xs ≡ ys }
{}

/// A strictly increasing list with the members of another is that list's `rising`.
pub fn rising_is()
    ensures { (xs hashes : List ℕ) → IsStrictlyIncreasing xs
        → ((x : ℕ) → Contains xs x → Contains hashes x) → ((x : ℕ) → Contains hashes x → Contains xs x) → rising hashes ≡ xs }
{}

/// One more hash needs no more than what is kept.
pub fn one_more()
    ensures { (k h : ℕ) (hashes : List ℕ) → k_smallest k (hashes ++ h ∷ []) ≡ take k (placed h (k_smallest k hashes)) }
{}

/// A batch needs no more than what is kept.
pub fn a_batch_more()
    ensures { (k : ℕ) (hashes more : List ℕ) → k_smallest k (hashes ++ more) ≡ k_smallest k (k_smallest k hashes ++ more) }
{}

/// Lists with the same members have the same k smallest, in whatever order and however often each stands.
pub fn k_smallest_of_members()
    ensures { (k : ℕ) (xs ys : List ℕ) → ((x : ℕ) → Contains xs x → Contains ys x) → ((x : ℕ) → Contains ys x → Contains xs x)
        → k_smallest k xs ≡ k_smallest k ys }
{}

/// Two lists, one after the other, need no more of either than what is kept of it.
pub fn k_smallest_append()
    ensures { (k : ℕ) (xs ys : List ℕ) → k_smallest k (k_smallest k xs ++ k_smallest k ys) ≡ k_smallest k (xs ++ ys) }
{}

/// The theta of a full list is at least k - 1, and at least k if its hashes are items.
pub fn theta_of_full()
    ensures any { (end k : ℕ) (hashes : List ℕ) → count_of k hashes ≡ k → k - 1 ≤ theta_to end k hashes }
    ensures items { (k : ℕ) (hashes : List ℕ) → AreItems hashes → count_of k hashes ≡ k → k ≤ theta_of k hashes }
{}

/// Theta is at least 1, whatever its end and even if a hash is 0, and of items at most their end.
pub fn theta_within()
    ensures lower { (end k : ℕ) (hashes : List ℕ) → 1 ≤ end → 2 ≤ k → 1 ≤ theta_to end k hashes }
    ensures upper { (k : ℕ) (hashes : List ℕ) → AreItems hashes → theta_of k hashes ≤ item_end }
{}

/// Theta never rises as a list grows.
pub fn theta_falls()
    ensures { (k : ℕ) (hashes more : List ℕ) → AreItems (hashes ++ more) → theta_of k (hashes ++ more) ≤ theta_of k hashes }
{}

/// An idle item stays idle as the list grows.
pub fn idle_stays()
    ensures { (k h : ℕ) (hashes more : List ℕ) → IsItem h → IsIdle k h hashes → IsIdle k h (hashes ++ more) }
{}

/// An idle item may be left out wherever it comes later.
pub fn idle_changes_nothing()
    ensures { (k h : ℕ) (hashes more rest : List ℕ) → IsItem h → IsIdle k h hashes
        → k_smallest k ((hashes ++ more) ++ h ∷ rest) ≡ k_smallest k ((hashes ++ more) ++ rest) }
{}

/// The count and the theta of items read back from their word, which has 64 bits.
pub fn packed_reads_back()
    ensures same { (k : ℕ) (hashes : List ℕ) → AreItems hashes
        → unpacked k (packed_of k hashes) ≡ (count_of k hashes, theta_of k hashes) }
    ensures fits { (k : ℕ) (hashes : List ℕ) → k ≤ most_k → AreItems hashes → packed_of k hashes < 2 ^ 64 }
{}

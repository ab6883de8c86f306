//! Sketches worked by hand.
ghost use Rattle.std.specs.Prelude.{◌≡◌, ℕ, [], ◌∷◌};
ghost use Rattle.sk_model.specs.Missing.{LacksAtMost};
ghost use Rattle.sk_model.specs.Sketch.{k_smallest, count_of, theta_of, estimate_of, packed_of, unpacked};

/// A list that has a hash twice keeps it once.
pub fn repeats_count_once()
    ensures two { k_smallest 2 (5 ∷ 3 ∷ 5 ∷ []) ≡ 3 ∷ 5 ∷ [] }
    ensures three { k_smallest 3 (9 ∷ 2 ∷ 9 ∷ 4 ∷ 2 ∷ 7 ∷ 4 ∷ []) ≡ 2 ∷ 4 ∷ 7 ∷ [] }
    ensures fewer { k_smallest 4 (6 ∷ 6 ∷ 1 ∷ 6 ∷ []) ≡ 1 ∷ 6 ∷ [] }
    ensures count { count_of 2 (3 ∷ 5 ∷ 3 ∷ []) ≡ 2 }
    ensures theta { theta_of 2 (3 ∷ 5 ∷ 3 ∷ []) ≡ 5 }
{}

/// Estimates, each as a numerator and a denominator.
pub fn worked_estimates()
    ensures none { estimate_of 4 [] ≡ (0, 1) }
    ensures one { estimate_of 4 (3 ∷ 3 ∷ []) ≡ (1, 1) }
    ensures two { estimate_of 2 (5 ∷ 3 ∷ []) ≡ (9223372036854775808, 5) }
    ensures least { estimate_of 2 (1 ∷ 2 ∷ []) ≡ (9223372036854775808, 2) }
    ensures greatest { estimate_of 2 (7 ∷ 9223372036854775807 ∷ []) ≡ (9223372036854775808, 9223372036854775807) }
    ensures merged { estimate_of 2 (3 ∷ 5 ∷ 3 ∷ []) ≡ (9223372036854775808, 5) }
{}

/// A word, and what is read from it.
pub fn worked_word()
    ensures packed { packed_of 2 (1 ∷ 2 ∷ []) ≡ 2 }
    ensures unpacked { unpacked 2 2 ≡ (2, 2) }
    ensures fewer { unpacked 2 (packed_of 2 (9 ∷ [])) ≡ (1, 9223372036854775808) }
    ensures least { unpacked 3 (packed_of 3 (3 ∷ 1 ∷ 2 ∷ [])) ≡ (3, 3) }
    ensures empty { unpacked 2 (packed_of 2 []) ≡ (0, 9223372036854775808) }
{}

/// A list that lacks the last member of another, and no fewer.
pub fn worked_missing()
    ensures one { LacksAtMost {A = ℕ} (1 ∷ 2 ∷ 3 ∷ []) (1 ∷ 2 ∷ 9 ∷ []) 1 }
    ensures none { LacksAtMost {A = ℕ} (1 ∷ 2 ∷ 3 ∷ []) (1 ∷ 2 ∷ 9 ∷ []) 0 → ⊥ }
{}

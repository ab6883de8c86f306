//! Values worked by hand, and coins of a published key stream.
ghost use Rattle.std.specs.Prelude.{◌≡◌, ℕ, List, [], ◌∷◌, map, replicate};
ghost use Rattle.sk_quant.specs.Coins.{coin_of};
ghost use Rattle.sk_quant.specs.Held.{Held, held_after, layers_of};
ghost use Rattle.sk_quant.specs.Ranks.{compactions, weighted_rank, rank_error};

/// Of 1, 2, 3 with k 2 nothing has gone up: two are below 3.
pub fn three_items()
    ensures below { (coins : ℕ → ℕ)
        → weighted_rank 3 (layers_of (held_after coins 2 (1 ∷ 2 ∷ 3 ∷ []))) ≡ 2 }
    ensures error { rank_error 3 2 ≡ 0 }
{}

/// Of 1, 2, 3, 4 the coin takes 1 and 3, or 2 and 4, for two each: two are below 3 either way.
pub fn four_items()
    ensures below { (coins : ℕ → ℕ)
        → weighted_rank 3 (layers_of (held_after coins 2 (1 ∷ 2 ∷ 3 ∷ 4 ∷ []))) ≡ 2 }
    ensures error { rank_error 4 2 ≡ 1 }
{}

/// Of no items none is below another.
pub fn no_items()
    ensures below { (coins : ℕ → ℕ) → weighted_rank 3 (layers_of (held_after coins 2 [])) ≡ 0 }
    ensures error { rank_error 0 2 ≡ 0 }
{}

/// Which items a coin takes, and what goes up twice.
pub fn levels_of_items()
    ensures first { held_after (λ _. 0) 2 (3 ∷ 1 ∷ 4 ∷ 2 ∷ [])
        ≡ record { base = []; levels = (1 ∷ 3 ∷ []) ∷ replicate 47 []; place = 1 } }
    ensures second { held_after (λ _. 1) 2 (3 ∷ 1 ∷ 4 ∷ 2 ∷ [])
        ≡ record { base = []; levels = (2 ∷ 4 ∷ []) ∷ replicate 47 []; place = 1 } }
    ensures twice { held_after (λ place. place) 2 (8 ∷ 3 ∷ 5 ∷ 3 ∷ 1 ∷ 7 ∷ 2 ∷ 9 ∷ 6 ∷ [])
        ≡ record { base = 6 ∷ []; levels = [] ∷ (3 ∷ 9 ∷ []) ∷ replicate 46 []; place = 3 } }
    ensures coins { compactions 9 2 48 ≡ 3 }
{}

/// The errors at a thousand items.
pub fn errors_of_a_thousand()
    ensures least { rank_error 1000 2 ≡ 1780 }
    ensures greater { rank_error 1000 64 ≡ 17 }
{}

/// The first coins of key 0, which has ChaCha8's published key stream of zeros, and of another key.
pub fn first_coins()
    ensures zero { map (λ place. coin_of 0 place) (0 ∷ 1 ∷ 2 ∷ 3 ∷ 4 ∷ 5 ∷ [])
        ≡ 0 ∷ 1 ∷ 1 ∷ 1 ∷ 0 ∷ 0 ∷ [] }
    ensures other { map (λ place. coin_of 281474976710655 place) (0 ∷ 1 ∷ 2 ∷ 16 ∷ [])
        ≡ 1 ∷ 0 ∷ 1 ∷ 1 ∷ [] }
{}

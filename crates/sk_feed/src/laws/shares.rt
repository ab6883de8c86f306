//! What each updater took of windows, and the word of a list that has all that they kept.
ghost use Rattle.std.specs.Prelude.{◌≡◌, ◌↔◌, ℕ, ◌<◌, Bool, List, [], ◌∷◌, ◌++◌, length, flat_map, Contains};
ghost use Rattle.std.specs.List.{range_with_len};
ghost use Rattle.sk_model.specs.Entries.{Entry};
ghost use Rattle.sk_model.specs.Sketch.{packed_of};
ghost use Rattle.sk_compose.specs.Numbers.{k_of};
ghost use Rattle.sk_hub.specs.Updaters.{UpdaterState};
ghost use Rattle.sk_read.specs.declared.kind.Kind.{Kind};
ghost use Rattle.sk_fill.specs.Windows.{all_lines, items_in};
ghost use Rattle.sk_feed.specs.Rounds.{TakeBlocks};
ghost use Rattle.sk_feed.specs.Shares.{share, KeepShares, TakeShares, HaveKeptNone, HasAllOf};

use sk_compose::ThetaWord;
use std::marker::PhantomData;

/// Of no windows nobody takes anything.
pub fn no_shares()
    ensures { (keeps : ℕ → ℕ → Bool) (hint_of : List ℕ → List Entry → ℕ) (kind : Kind) (us : List UpdaterState)
        → TakeShares keeps hint_of kind [] us us }
{}

/// Who took the blocks of a window took their shares of it.
pub fn a_window_is_taken()
    ensures { (keeps : ℕ → ℕ → Bool) (hint_of : List ℕ → List Entry → ℕ) (kind : Kind) (lines : List (List ℕ))
        (us us' : List UpdaterState) → length us' ≡ length us → TakeBlocks keeps hint_of kind lines us us'
        → TakeShares keeps hint_of kind (lines ∷ []) us us' }
{}

/// Shares of windows that follow others add up, in order.
pub fn shares_add_up()
    ensures { (keeps : ℕ → ℕ → Bool) (hint_of : List ℕ → List Entry → ℕ) (kind : Kind)
        (windows more : List (List (List ℕ))) (us vs ws : List UpdaterState)
        → TakeShares keeps hint_of kind windows us vs → TakeShares keeps hint_of kind more vs ws
        → TakeShares keeps hint_of kind (windows ++ more) us ws }
{}

/// All shares have the items of all lines.
pub fn shares_are_all_items()
    ensures { (kind : Kind) (windows : List (List (List ℕ))) (n x : ℕ) → 0 < n
        → Contains (flat_map (λ i. share kind windows n i) (range_with_len 0 n)) x
        ↔ Contains (items_in kind (all_lines windows)) x }
{}

/// What was taken was kept, but for what is filtered.
pub fn what_was_taken_is_kept()
    ensures { (keeps : ℕ → ℕ → Bool) (hint_of : List ℕ → List Entry → ℕ) (kind : Kind) (windows : List (List (List ℕ)))
        (us us' : List UpdaterState) → TakeShares keeps hint_of kind windows us us' → KeepShares keeps hint_of kind windows us us' }
{}

/// The word of a list that has all that updaters kept is one thread's, over the items of all lines.
pub fn the_word_is_of_all_that_was_taken<C: ThetaWord>(_sketch: PhantomData<C>)
    ensures { (numbers : List ℕ) (list : List Entry) (kind : Kind) (windows : List (List (List ℕ)))
        (us us' : List UpdaterState) → 0 < length us → HaveKeptNone numbers us
        → KeepShares C.keeps_of C.hint_of kind windows us us' → HasAllOf list us'
        → C.packed_of numbers list ≡ packed_of (k_of numbers) (items_in kind (all_lines windows)) }
{}

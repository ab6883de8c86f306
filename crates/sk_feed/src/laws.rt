//! What follows from the definitions alone.
ghost use Rattle.std.specs.Prelude.{◌≡◌, ℕ, Bool, true, ◌&&◌, List, ◌≤◌, ◌+◌, ◌++◌, length, slice_range};
ghost use Rattle.sk_model.specs.Entries.{Entry, entries_by};
ghost use Rattle.sk_model.specs.Missing.{Begins};
ghost use Rattle.sk_hub.specs.Updaters.{UpdaterState, base_of, kept_of};
ghost use Rattle.sk_read.specs.declared.kind.Kind.{Kind};
ghost use Rattle.sk_fill.specs.Windows.{items_in};
ghost use Rattle.sk_hub.specs.Calls.{Takes};
ghost use Rattle.sk_feed.specs.Hubs.{HasAllPublished, HandsOverEarly};

pub mod shares;

/// What an updater takes after other items, it takes with them.
pub fn takes_add_up()
    ensures { (keeps : ℕ → ℕ → Bool) (hint_of : List ℕ → List Entry → ℕ) (u v w : UpdaterState) (items more : List ℕ)
        → Takes keeps hint_of u items v → Takes keeps hint_of v more w → Takes keeps hint_of u (items ++ more) w }
{}

/// Who took the items of a block up to a place, and then those from there, took the block's.
pub fn parts_of_a_block_add_up()
    ensures { (keeps : ℕ → ℕ → Bool) (hint_of : List ℕ → List Entry → ℕ) (kind : Kind) (lines : List (List ℕ))
        (from place to : ℕ) (u v w : UpdaterState) → from ≤ place → place ≤ to
        → Takes keeps hint_of u (items_in kind (slice_range lines from place)) v
        → Takes keeps hint_of v (items_in kind (slice_range lines place to)) w
        → Takes keeps hint_of u (items_in kind (slice_range lines from to)) w }
{}

/// What an updater had kept begins what it keeps later.
pub fn kept_begins_later()
    ensures { (keeps : ℕ → ℕ → Bool) (hint_of : List ℕ → List Entry → ℕ) (u u' : UpdaterState) (items : List ℕ)
        → Takes keeps hint_of u items u' → Begins (kept_of u) (kept_of u') }
{}

/// No more items are kept than were taken.
pub fn takes_few()
    ensures { (keeps : ℕ → ℕ → Bool) (hint_of : List ℕ → List Entry → ℕ) (u u' : UpdaterState) (items : List ℕ)
        → Takes keeps hint_of u items u' → length (kept_of u') ≤ length (kept_of u) + length items }
{}

/// While an updater is eager, the base of a settled one has all that it has kept.
pub fn an_eager_base_lacks_nothing()
    ensures { (early : ℕ → Bool) (u : UpdaterState) → HasAllPublished u → HandsOverEarly early u → (u.eager && early u.hint) ≡ true
        → entries_by u.number (base_of u) ≡ kept_of u }
{}

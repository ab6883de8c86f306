//! What follows from the definitions alone.
ghost use Rattle.std.specs.Prelude.{◌≡◌, ◌≤◌, List, All, length};
ghost use Rattle.sk_model.specs.Entries.{Entry, entries_by};
ghost use Rattle.sk_model.specs.Missing.{Begins};
ghost use Rattle.sk_hub.specs.Updaters.{UpdaterState, kept_of};
ghost use Rattle.sk_learn.specs.Closing.{AreApart, items_kept, HasExactly};

/// A list that has of each updater no less than it kept has as many entries in all; if it has no more, it has nothing
/// else. So a caller who took updaters in by several calls concludes what it read.
pub fn as_many_are_exactly_these()
    ensures least { (us : List UpdaterState) (list : List Entry) → AreApart us → All (λ u. Begins (kept_of u) (entries_by u.number list)) us
        → items_kept us ≤ length list }
    ensures exactly { (us : List UpdaterState) (list : List Entry) → AreApart us → All (λ u. Begins (kept_of u) (entries_by u.number list)) us
        → length list ≡ items_kept us → HasExactly list us }
{}

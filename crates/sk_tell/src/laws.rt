//! What follows from the definitions alone.
ghost use Rattle.std.specs.Prelude.{◌≡◌, ◌<◌, ◌++◌, ◌∷◌, [], ℕ, List, length, None, IsPermutation};
ghost use Rattle.sk_model.specs.Entries.{Entry, items_of_entries};
ghost use Rattle.sk_hub.specs.Hearts.{HeartState};
ghost use Rattle.sk_read.specs.Items.{items_by};
ghost use Rattle.sk_snap.specs.Versions.{Learnt};
ghost use Rattle.sk_tell.specs.Manners.{Manner};
ghost use Rattle.sk_tell.specs.Feeding.{Course};
ghost use Rattle.sk_tell.specs.Headline.{IsListOf, TellsLines};

/// A list that has of each updater the items of its blocks has the items of all lines, in some order.
pub fn lists_have_all_items()
    ensures { (manner : Manner) (units : List (List ℕ)) (course : Course manner units) (list : List Entry) → 0 < manner.updaters
        → IsListOf manner (course.windows ++ course.rest ∷ []) list → IsPermutation (items_by manner.kind units) (items_of_entries list) }
{}

/// So it has as many.
pub fn lists_have_as_many_items()
    ensures { (manner : Manner) (units : List (List ℕ)) (course : Course manner units) (list : List Entry) → 0 < manner.updaters
        → IsListOf manner (course.windows ++ course.rest ∷ []) list → length (items_of_entries list) ≡ length (items_by manner.kind units) }
{}

/// The list of one updater has the items in the order of the lines.
pub fn one_updater_keeps_the_order()
    ensures { (manner : Manner) (units : List (List ℕ)) (course : Course manner units) (list : List Entry) → manner.updaters ≡ 1
        → IsListOf manner (course.windows ++ course.rest ∷ []) list → items_of_entries list ≡ items_by manner.kind units }
{}

/// With one updater and no window the text is one thread's: the line of the items in the order of the lines.
pub fn one_updater_writes_one_line()
    ensures { (manner : Manner) (lines : List (List ℕ)) (h : HeartState) (reader : Learnt) (text : List ℕ) → manner.updaters ≡ 1 → manner.window ≡ None
        → TellsLines manner lines h reader text → text ≡ manner.line (items_by manner.kind lines) }
{}

//! What follows from the definitions alone.
ghost use Rattle.std.specs.Prelude.{◌≡◌, ◌<◌, ◌≤◌, ◌++◌, ◌∷◌, [], ℕ, List, length};
ghost use Rattle.std.specs.Int.{abs_diff};
ghost use Rattle.sk_model.specs.Entries.{Entry, items_of_entries};
ghost use Rattle.sk_quant.specs.Held.{ranked};
ghost use Rattle.sk_quant.specs.Limits.{most_items};
ghost use Rattle.sk_quant.specs.Ranks.{rank_of, rank_error};
ghost use Rattle.sk_read.specs.Items.{items_by};
ghost use Rattle.sk_read.specs.declared.kind.Kind.TheVariants.{Raw};
ghost use Rattle.sk_tell.specs.Feeding.{Course};
ghost use Rattle.sk_tell.specs.Headline.{IsListOf};
ghost use Rattle.sk_rank.specs.declared.plan.Plan.{Plan};
ghost use Rattle.sk_rank.specs.Nearness.{IsNear};
ghost use Rattle.sk_rank.specs.Plans.{rank_manner};

/// A rank is near, whatever the list is, if it is not too long.
pub fn ranks_are_near()
    ensures { (x k key : ℕ) (items : List ℕ) → 1 ≤ k → length items ≤ most_items → IsNear x k key items }
{}

/// A list that has of each updater the items of its blocks has as many items as the lines, and the rank that is written of
/// it differs from the true one in the lines by at most the error.
pub fn ranks_of_lists_are_near()
    ensures count { (plan : Plan) (units : List (List ℕ)) (course : Course (rank_manner plan) units) (list : List Entry) → 0 < plan.updaters
        → IsListOf (rank_manner plan) (course.windows ++ course.rest ∷ []) list → length (items_of_entries list) ≡ length (items_by Raw units) }
    ensures rank { (plan : Plan) (units : List (List ℕ)) (course : Course (rank_manner plan) units) (list : List Entry) → 0 < plan.updaters
        → IsListOf (rank_manner plan) (course.windows ++ course.rest ∷ []) list → rank_of plan.at (items_of_entries list) ≡ rank_of plan.at (items_by Raw units) }
    ensures near { (plan : Plan) (units : List (List ℕ)) (course : Course (rank_manner plan) units) (list : List Entry) → 0 < plan.updaters
        → 1 ≤ plan.k → length (items_by Raw units) ≤ most_items → IsListOf (rank_manner plan) (course.windows ++ course.rest ∷ []) list
        → abs_diff (ranked plan.at plan.k plan.key (items_of_entries list)) (rank_of plan.at (items_by Raw units))
        ≤ rank_error (length (items_by Raw units)) plan.k }
{}

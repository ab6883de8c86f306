//! What follows from the definitions alone.
ghost use Rattle.std.specs.Prelude.{◌≡◌, ℕ, List, None};
ghost use Rattle.sk_read.specs.Items.{items_by};
ghost use Rattle.sk_read.specs.declared.kind.Kind.TheVariants.{Hash};
ghost use Rattle.sk_tally.specs.declared.plan.Plan.{Plan};
ghost use Rattle.sk_tally.specs.Headline.{TalliesAll};
ghost use Rattle.sk_tally.specs.Plans.{tally_line};

/// With no window the text is one thread's, for any number of updaters: the line of the items in the order of the lines.
pub fn a_tally_is_one_line()
    ensures { (plan : Plan) (lines : List (List ℕ)) (text : List ℕ) → plan.window ≡ None
        → TalliesAll plan lines text → text ≡ tally_line plan (items_by (Hash plan.seed) lines) }
{}

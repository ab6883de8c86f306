//! How many of the last members of one list another lacks.

ghost use Rattle.std.specs.Prelude.{ℕ, List, ◌+◌, ◌++◌, ◌≤◌, length};
ghost use Rattle.sk_model.specs.Missing.{Begins, LacksAtMost};

/// What is missing over two steps adds up.
pub fn missing_adds_up()
    ensures { (xs ys zs : List ℕ) (r s : ℕ) → LacksAtMost xs ys r → LacksAtMost ys zs s → LacksAtMost xs zs (r + s) }
{}

/// A list that lacks none of another's members but its last r lacks none more of a longer one.
pub fn missing_stays()
    ensures { (xs ys more : List ℕ) (r : ℕ) → LacksAtMost xs ys r → LacksAtMost xs (ys ++ more) r }
{}

/// Of a list of at most r members the last r may all be missing.
pub fn all_may_be_missing()
    ensures { (xs ys : List ℕ) (r : ℕ) → length xs ≤ r → LacksAtMost xs ys r }
{}

/// Of two lists that begin a third, the shorter begins the longer.
pub fn the_shorter_begins()
    ensures { (xs ys whole : List ℕ) → Begins xs whole → Begins ys whole → length xs ≤ length ys → Begins xs ys }
{}

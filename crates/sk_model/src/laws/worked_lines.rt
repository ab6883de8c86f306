//! Lines of texts that a reader can check by hand.

ghost use Rattle.std.specs.Prelude.{◌≡◌, [], ◌∷◌};
ghost use Rattle.sk_model.specs.Lines.{lines_of};

/// LF, `a` CR LF, `a`: an empty line, then `a` twice.
#[tactic(auto, unfolding(crate::specs::Lines::lines_of))]
pub fn cr_before_lf_is_dropped()
    ensures { lines_of (10 ∷ 97 ∷ 13 ∷ 10 ∷ 97 ∷ []) ≡ [] ∷ (97 ∷ []) ∷ (97 ∷ []) ∷ [] }
{}

/// Of CR CR LF one CR stays.
#[tactic(auto, unfolding(crate::specs::Lines::lines_of))]
pub fn one_cr_is_dropped()
    ensures { lines_of (13 ∷ 13 ∷ 10 ∷ []) ≡ (13 ∷ []) ∷ [] }
{}

/// A last piece that is CR alone is a line of one byte.
#[tactic(auto, unfolding(crate::specs::Lines::lines_of))]
pub fn cr_at_the_end_stays()
    ensures { lines_of (97 ∷ 10 ∷ 13 ∷ []) ≡ (97 ∷ []) ∷ (13 ∷ []) ∷ [] }
{}

/// A CR elsewhere is a byte of its line.
#[tactic(auto, unfolding(crate::specs::Lines::lines_of))]
pub fn cr_inside_a_line_stays()
    ensures { lines_of (97 ∷ 13 ∷ 98 ∷ 10 ∷ []) ≡ (97 ∷ 13 ∷ 98 ∷ []) ∷ [] }
{}

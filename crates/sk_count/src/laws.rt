//! What follows from the definitions alone, and texts, boards and moments of counts, worked by hand.
ghost use Rattle.std.specs.Prelude.{◌≡◌, ◌*◌, ℕ, List, [], ◌∷◌, ◌++◌, Some, None, replicate, All};
ghost use Rattle.sk_lines.specs.Fractions.{estimate_line};
ghost use Rattle.sk_model.specs.Entries.{entries_by};
ghost use Rattle.sk_model.specs.Lines.{sequential_estimate};
ghost use Rattle.sk_model.specs.Missing.{LacksAtMost};
ghost use Rattle.sk_model.specs.Murmur.{hash_of};
ghost use Rattle.sk_read.specs.declared.kind.Kind.TheVariants.{Hash};
ghost use Rattle.sk_watch.specs.Alarms.{alarm};
ghost use Rattle.sk_watch.specs.Places.{Place};
ghost use Rattle.sk_count.specs.declared.plan.Plan.{Plan};
ghost use Rattle.sk_count.specs.Moments.{Moment};
ghost use Rattle.sk_report.specs.declared.remains.Remains.{Remains};
ghost use Rattle.sk_report.specs.Sizes.{size_at};
ghost use Rattle.sk_report.specs.Texts.{alarm_line, armed_with, interim_line};
ghost use Rattle.sk_count.specs.Headline.{CountsExactly, IsBounded};
ghost use Rattle.sk_count.specs.Texts.{interim_text, places_after, last_lines};

/// Over lines that are hashed the last line is the sequential sketch's estimate.
pub fn last_line_is_sequential()
    ensures { (plan : Plan) (seed : ℕ) (lines : List (List ℕ)) → plan.kind ≡ Hash seed → plan.made ≡ None
        → last_lines plan lines ≡ estimate_line (sequential_estimate plan.k (hash_of seed) lines) }
{}

/// An interim estimate is of a list that has only items of the units read by then, and the list begins that of the last
/// line.
pub fn interim_lists_are_bounded()
    ensures { (plan : Plan) (units : List (List ℕ)) (board board' : List Place) (remains : Remains) (text : List ℕ)
        → (exactly : CountsExactly plan units board board' remains text)
        → All (IsBounded plan units exactly.shown.heart.view.seen) exactly.moments }
{}

/// A window of five of which two are seen, and all five; two windows of two; no window.
pub fn worked_interim_texts()
    ensures two_of_five { interim_text 8 [] (record { lines = 5; seen = (0, 1) ∷ (0, 2) ∷ []; kept = [] } ∷ []) ≡ interim_line 5 (2, 1) }
    ensures five { interim_text 8 [] (record { lines = 5; seen = (0, 1) ∷ (0, 2) ∷ (0, 3) ∷ (0, 4) ∷ (0, 5) ∷ []; kept = [] } ∷ []) ≡ interim_line 5 (5, 1) }
    ensures two_windows { interim_text 8 [] (record { lines = 2; seen = (0, 1) ∷ (0, 2) ∷ []; kept = [] } ∷ record { lines = 4; seen = (0, 1) ∷ (0, 2) ∷ (0, 3) ∷ (0, 4) ∷ []; kept = [] } ∷ [])
        ≡ interim_line 2 (2, 1) ++ interim_line 4 (4, 1) }
    ensures none { interim_text 8 [] [] ≡ [] }
{}

/// Four places of which three are armed, with the marks 2, 4 and 9; the first goes at 2, the second at 4.
pub fn worked_alarms()
    ensures armed { armed_with 8 (2 ∷ 4 ∷ 9 ∷ []) (replicate 4 (Some (alarm []))) ≡ Some (alarm (8 ∷ 2 ∷ [])) ∷ Some (alarm (8 ∷ 4 ∷ [])) ∷ Some (alarm (8 ∷ 9 ∷ [])) ∷ None ∷ [] }
    ensures text { interim_text 8 (armed_with 8 (2 ∷ 4 ∷ 9 ∷ []) (replicate 4 (Some (alarm []))))
        (record { lines = 2; seen = (0, 1) ∷ (0, 2) ∷ []; kept = [] } ∷ record { lines = 4; seen = (0, 1) ∷ (0, 2) ∷ (0, 3) ∷ (0, 4) ∷ []; kept = [] } ∷ [])
        ≡ (interim_line 2 (2, 1) ++ alarm_line 1) ++ (interim_line 4 (4, 1) ++ alarm_line 2) }
    ensures left { places_after 8 (armed_with 8 (2 ∷ 4 ∷ 9 ∷ []) (replicate 4 (Some (alarm []))))
        (record { lines = 2; seen = (0, 1) ∷ (0, 2) ∷ []; kept = [] } ∷ record { lines = 4; seen = (0, 1) ∷ (0, 2) ∷ (0, 3) ∷ (0, 4) ∷ []; kept = [] } ∷ [])
        ≡ None ∷ None ∷ Some (alarm (8 ∷ 9 ∷ [])) ∷ None ∷ [] }
{}

/// With buffers of two a list may lack three of five, and no more; the last size holds for further updaters.
pub fn worked_sizes()
    ensures three { LacksAtMost (1 ∷ 2 ∷ 3 ∷ 4 ∷ 5 ∷ []) (entries_by 0 ((0, 1) ∷ (0, 2) ∷ [])) (2 * size_at (2 ∷ []) 0) }
    ensures none_seen { LacksAtMost (1 ∷ 2 ∷ 3 ∷ 4 ∷ 5 ∷ []) (entries_by 0 []) (2 * size_at (2 ∷ []) 0) → ⊥ }
    ensures last { size_at (2 ∷ 1 ∷ []) 5 ≡ 1 }
{}

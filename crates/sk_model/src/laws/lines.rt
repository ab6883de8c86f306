//! Laws of lines.

ghost use Rattle.std.specs.Prelude.{◌≡◌, ◌≢◌, ◌-◌, ◌<◌, ◌≤◌, ℕ, List, [], ◌∷◌, ◌++◌, All, length, take};
ghost use Rattle.std.specs.Str.Lines.{strip_carriage_return};
ghost use Rattle.sk_model.specs.Lines.{lines_of, open_lines_of, AreWithin, IsFirstLong, filled, items_of};

/// At each LF a text falls into the lines before it and those after it.
pub fn lines_after_a_line_end()
    ensures { (front rest : List ℕ) → lines_of (front ++ 10 ∷ rest)
        ≡ lines_of (front ++ 10 ∷ []) ++ lines_of rest }
{}

/// A piece without LF that LF ends is one line, without its CR.
pub fn a_line_alone()
    ensures { (piece : List ℕ) → All (λ byte. byte ≢ 10) piece
        → lines_of (piece ++ 10 ∷ []) ≡ strip_carriage_return piece ∷ [] }
{}

/// A last piece without LF is one line with its CR, or none where it is empty.
pub fn a_last_piece()
    ensures none { lines_of [] ≡ [] }
    ensures one { (piece : List ℕ) → All (λ byte. byte ≢ 10) piece
        → 0 < length piece → lines_of piece ≡ piece ∷ [] }
{}

/// Whatever follows a text, the lines before its last piece stay.
pub fn open_lines_stay()
    ensures { (text more : List ℕ) → take (length (open_lines_of text) - 1) (lines_of (text ++ more))
        ≡ take (length (open_lines_of text) - 1) (open_lines_of text) }
{}

/// A line that is too long already is so whatever follows.
pub fn long_stays_long()
    ensures { (limit n : ℕ) (text more : List ℕ)
        → IsFirstLong limit n (open_lines_of text) → IsFirstLong limit n (lines_of (text ++ more)) }
{}

/// The first line that is too long is one, and there is none where all are within the limit.
pub fn first_long_is_one()
    ensures one { (limit m n : ℕ) (lines : List (List ℕ))
        → IsFirstLong limit m lines → IsFirstLong limit n lines → m ≡ n }
    ensures none { (limit n : ℕ) (lines : List (List ℕ))
        → AreWithin limit lines → ¬ IsFirstLong limit n lines }
{}

/// Lines within a limit, after others within it, are all within it.
pub fn within_append()
    ensures { (limit : ℕ) (xs ys : List (List ℕ))
        → AreWithin limit xs → AreWithin limit ys → AreWithin limit (xs ++ ys) }
{}

/// The items of appended lines are those of the first and then those of the second. The same holds
/// of the lines that are not empty.
pub fn items_append()
    ensures lines { (xs ys : List (List ℕ)) → filled (xs ++ ys) ≡ filled xs ++ filled ys }
    ensures items { (item : List ℕ → ℕ) (xs ys : List (List ℕ))
        → items_of item (xs ++ ys) ≡ items_of item xs ++ items_of item ys }
{}

/// A line is an item where it is not empty.
pub fn item_of_a_line()
    ensures line { (line : List ℕ) → 0 < length line → filled (line ∷ []) ≡ line ∷ [] }
    ensures item { (item : List ℕ → ℕ) (line : List ℕ)
        → 0 < length line → items_of item (line ∷ []) ≡ item line ∷ [] }
    ensures no_line { filled ([] ∷ []) ≡ [] }
    ensures no_item { (item : List ℕ → ℕ) → items_of item ([] ∷ []) ≡ [] }
{}

/// A text has no more lines than bytes, and no more items than lines.
pub fn lines_are_few()
    ensures lines { (text : List ℕ) → length (lines_of text) ≤ length text }
    ensures items { (item : List ℕ → ℕ) (lines : List (List ℕ)) → length (items_of item lines) ≤ length lines }
{}

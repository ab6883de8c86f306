//! What follows from the definitions alone.
ghost use Rattle.std.specs.Prelude.{ℕ, List, ◌≡◌, ◌<◌, ◌≤◌, ◌+◌, length, All, flat_map};
ghost use Rattle.std.specs.List.{range_with_len};
ghost use Rattle.sk_model.specs.Width.{AreItems};
ghost use Rattle.sk_read.specs.Items.{items_by, IsGood};
ghost use Rattle.sk_read.specs.declared.kind.Kind.{Kind};
ghost use Rattle.sk_fill.specs.Blocks.{place_of, block_of};
ghost use Rattle.sk_fill.specs.Windows.{items_in};

/// The first block begins at the first line.
pub fn blocks_begin()
    ensures { (lines n : ℕ) → place_of lines 0 n ≡ 0 }
{}

/// The last block ends after the last line.
pub fn blocks_end()
    ensures { (lines n : ℕ) → 0 < n → place_of lines n n ≡ lines }
{}

/// Each block ends where it begins, or after.
pub fn blocks_rise()
    ensures { (lines i n : ℕ) → 0 < n → place_of lines i n ≤ place_of lines (i + 1) n }
{}

/// The blocks, one after another, are the lines, and their items are those of the lines.
pub fn blocks_are_the_lines()
    ensures lines { (lines : List (List ℕ)) (n : ℕ) → 0 < n
        → flat_map (λ i. block_of lines i n) (range_with_len 0 n) ≡ lines }
    ensures items { (kind : Kind) (lines : List (List ℕ)) (n : ℕ) → 0 < n
        → flat_map (λ i. items_in kind (block_of lines i n)) (range_with_len 0 n) ≡ items_in kind lines }
{}

/// If each line is empty or an item, the items are those that a reader of these lines gives.
pub fn items_of_good_lines()
    ensures { (kind : Kind) (lines : List (List ℕ)) → All (IsGood kind) lines → items_in kind lines ≡ items_by kind lines }
{}

/// Items of lines are below the end of the items.
pub fn items_of_lines_are_below()
    ensures { (kind : Kind) (lines : List (List ℕ)) → AreItems (items_in kind lines) }
{}

/// No line has more than one item.
pub fn items_are_few()
    ensures { (kind : Kind) (lines : List (List ℕ)) → length (items_in kind lines) ≤ length lines }
{}

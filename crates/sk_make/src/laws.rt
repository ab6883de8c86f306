//! Laws of the text that is made. Each function is empty: its contract is the law.

ghost use Rattle.std.specs.Prelude.{◌≡◌, ◌*◌, ◌<◌, ◌≤◌, ℕ, Some, All, length, map, decimal};
ghost use Rattle.sk_model.specs.Lines.{lines_of};
ghost use Rattle.sk_model.specs.Numbers.{number_of};
ghost use Rattle.sk_model.specs.Width.{number_end};
ghost use Rattle.sk_make.specs.Made.{made_number, made_numbers, made_text, made_end};

/// Each number has at most 48 bits.
pub fn numbers_are_small()
    ensures { (key j : ℕ) → made_number key j < made_end }
{}

/// The text of n numbers has n lines, which spell them in order, and at most sixteen bytes a line.
pub fn lines_are_numbers()
    ensures lines { (n key : ℕ) → lines_of (made_text n key) ≡ map decimal (made_numbers n key) }
    ensures count { (n key : ℕ) → length (lines_of (made_text n key)) ≡ n }
    ensures spelled { (n key : ℕ) → map (number_of number_end) (lines_of (made_text n key)) ≡ map Some (made_numbers n key) }
    ensures size { (n key : ℕ) → length (made_text n key) ≤ 16 * n }
{}
